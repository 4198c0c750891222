//! The first broken rule of a property.

ghost use Rattle.std.specs.Prelude.{◌≡◌, [], map, IfNone, IfOk};
ghost use Rattle.std.specs.Option.{option_map};
ghost use Rattle.indus_tree.specs.View.{block_of, decl_of, expr_of, property_of, shape_of};
ghost use Rattle.indus_scopes.specs.NameTable.{names_of, texts};
ghost use Rattle.indus_rules.specs.Sites.{at_decl, start_want, start_sites, decl_sites, property_sites, block_sites, blocks_sites};
ghost use Rattle.indus_rules.specs.Rules.{bad_edition, first, rule_at};

use crate::check::{check_block, check_expr};
use crate::decl_rules::rule_of_decl;
use crate::rule::Rule;
use indexmap::IndexSet;
use indus_scopes::declared::Declared;
use indus_scopes::kind::{Kind, kind_of};
use indus_scopes::scope::Block;
use indus_scopes::sight::Scope;
use indus_tree::{Decl, Expr, Property, Shape, Stmt};
use std::alloc::{AllocError, Global};

fn start_want(s: &Shape) -> Kind
    ensures { result ≡ start_want (shape_of s.now) }
{
    match s {
        Shape::One(t) => kind_of(*t),
        Shape::List(t, _) => kind_of(*t),
        _ => Kind::Unknown,
    }
}

fn check_start(alloc: Global, start: &Option<Expr>, s: &Shape) -> Option<(u32, Rule)>
    ensures { result ≡ first (start_sites (option_map expr_of start.now) (shape_of s.now)) }
{
    match start {
        None => None,
        Some(e) => {
            let none = Declared {
                decls: &[],
                names: &IndexSet::new(alloc),
            };
            let scope = Scope::new(alloc, 1, none, Block::Init);
            check_expr(&scope, start_want(s), e)
        }
    }
}

/// The first broken rule of the declarations; where there is none, their names are put into the table.
fn check_decls(
    alloc: Global,
    names: &mut IndexSet<String>,
    decls: &[Decl],
) -> Result<Option<(u32, Rule)>, AllocError>
    requires { names.old.keys ≡ [] }
    ensures fault { IfOk result (λ o. o ≡ first (decl_sites [] (map decl_of decls.now))) }
    ensures named { IfOk result (λ o. IfNone o (texts names.new.keys ≡ names_of (map decl_of decls.now))) }
{
    for (i, d) in decls.iter().enumerate() {
        if let Some(rule) = rule_of_next(names, &decls[..i], d) {
            return Ok(Some((d.at, rule)));
        }
        if let Some(fault) = check_start(alloc, &d.start, &d.shape) {
            return Ok(Some(fault));
        }
        names.insert(String::from_str(alloc, d.name.as_str())?)?;
    }
    Ok(None)
}

/// The first broken rule of a declaration behind those of the table.
fn rule_of_next(names: &IndexSet<String>, before: &[Decl], d: &Decl) -> Option<Rule>
    requires { texts names.now.keys ≡ names_of (map decl_of before.now) }
    ensures { result ≡ rule_at (at_decl (map decl_of before.now) (decl_of d.now)) }
{
    let before = Declared {
        decls: before,
        names,
    };
    rule_of_decl(&before, d)
}

fn check_part<'a>(
    alloc: Global,
    edition: u8,
    decls: Declared<'a>,
    block: Block,
    body: &'a [Stmt],
) -> Result<Option<(u32, Rule)>, AllocError>
    ensures { IfOk result (λ o. o ≡ first (block_sites (record { edition = edition; decls = map decl_of decls.entry.decls.now; loops = []; block = block }) (block_of body.now))) }
{
    let mut scope = Scope::new(alloc, edition, decls, block);
    check_block(alloc, &mut scope, body)
}

/// An edition that no property has.
fn bad_edition(edition: u8) -> bool
    ensures { result ≡ bad_edition edition }
{
    !(edition == 1 || edition == 2)
}

/// The first broken rule of a property, with its place.
pub fn first_fault(alloc: Global, p: &Property) -> Result<Option<(u32, Rule)>, AllocError>
    ensures { IfOk result (λ o. o ≡ first (property_sites (property_of p.now))) }
{
    if bad_edition(p.edition) {
        return Ok(Some((p.at, Rule::BadSize)));
    }
    let mut names = IndexSet::new(alloc);
    if let Some(fault) = check_decls(alloc, &mut names, &p.decls)? {
        return Ok(Some(fault));
    }
    check_blocks(alloc, &names, p)
}

/// The first broken rule of the blocks.
fn check_blocks(
    alloc: Global,
    names: &IndexSet<String>,
    p: &Property,
) -> Result<Option<(u32, Rule)>, AllocError>
    requires { texts names.now.keys ≡ names_of (map decl_of p.now.decls.items) }
    ensures { IfOk result (λ o. o ≡ first (blocks_sites (property_of p.now))) }
{
    let decls = Declared {
        decls: &p.decls,
        names,
    };
    if let Some(fault) = check_part(alloc, p.edition, decls, Block::Init, &p.init)? {
        return Ok(Some(fault));
    }
    if let Some(fault) = check_part(alloc, p.edition, decls, Block::Tele, &p.tele)? {
        return Ok(Some(fault));
    }
    check_part(alloc, p.edition, decls, Block::Check, &p.check)
}
