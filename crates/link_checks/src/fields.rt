//! Whether a program has what header variables read.

ghost use Rattle.std.specs.Prelude.{◌≡◌, ◌∷◌, [], codes, if◌then◌else◌, IfErr, IfOk, None, map};
ghost use Rattle.indus_tree.specs.Hops.{same_kind};
ghost use Rattle.indus_tree.specs.View.{decl_of};
ghost use Rattle.indus_tree.specs.declared.tree.DeclKind.TheVariants as decl_kind;
ghost use Rattle.p4_tree.specs.View.{program_of};
ghost use Rattle.p4_meaning.specs.Parts.{parser_in, parser_type};
ghost use Rattle.lex_text.specs.Names.{same_text};
ghost use Rattle.p4_scopes.specs.Scopes.{missing};
ghost use Rattle.p4_scopes.specs.View.{scope_of, stands_of};
ghost use Rattle.p4_rules.specs.ProgramRules.{program_scope};
ghost use Rattle.link_faults.specs.HeaderFields.{asked_path, decl_fault, dotted, field_fault, field_in, fields_fault, fits, is_field_of, is_header, is_number_of};
ghost use Rattle.link_checks.specs.Faults.{IsRefused};

use crate::fault::LinkFault;
use indus_tree::{Decl, DeclKind, Shape, Ty};
use lex_text::Name;
use p4_declaration_rules::firsts::declare_firsts;
use p4_resolved::{named_in, param_type, parser_named};
use p4_scopes::kind::Kind;
use p4_scopes::scope::Scope;
use p4_scopes::stands::Stands;
use p4_scopes::thing::Thing;
use p4_tree::Program;
use p4_values::same_text;
use std::alloc::{AllocError, Global};

/// The struct of a parameter of the parser that `main` names.
fn struct_at(program: &Program, at: u8) -> &str
    ensures { result.now ≡ parser_type (parser_in (program_of program.now)) at }
{
    match parser_named(&program.tops, named_in(&program.main, 0)) {
        None => "",
        Some(parser) => param_type(&parser.params, at),
    }
}

/// What stands in a struct at a path.
fn found_in<'s>(
    alloc: Global,
    scope: &'s Scope,
    owner: &str,
    path: &[Name],
) -> Result<Stands<'s>, AllocError>
    ensures { IfOk result (λ st. stands_of st ≡ scope_of scope.now (owner.now ∷ path.now)) }
{
    let mut whole = Vec::new(alloc);
    whole.push(Name::new(alloc, owner)?)?;
    for name in path {
        whole.push(name.copy(alloc)?)?;
    }
    Ok(scope.find(&whole))
}

/// What stands in the standard metadata, where that is the root.
fn standard_field<'s>(
    alloc: Global,
    scope: &'s Scope,
    root: &Name,
    path: &[Name],
) -> Result<Stands<'s>, AllocError>
    ensures { IfOk result (λ st. stands_of st
        ≡ if same_text root.now (codes "standard_metadata") then scope_of scope.now (codes "standard_metadata_t" ∷ path.now) else missing) }
{
    if same_text(root.as_str(), "standard_metadata") {
        found_in(alloc, scope, "standard_metadata_t", path)
    } else {
        Ok(Stands::Missing)
    }
}

/// What the program has at a path of a property.
fn field_in<'s>(
    alloc: Global,
    scope: &'s Scope,
    program: &Program,
    path: &[Name],
) -> Result<Stands<'s>, AllocError>
    ensures { IfOk result (λ st. stands_of st
        ≡ field_in (scope_of scope.now) (program_of program.now) path.now) }
{
    match path {
        [] => Ok(Stands::Missing),
        [root, rest @ ..] => {
            if same_text(root.as_str(), "hdr") {
                found_in(alloc, scope, struct_at(program, 1), rest)
            } else if same_text(root.as_str(), "meta") {
                found_in(alloc, scope, struct_at(program, 2), rest)
            } else {
                standard_field(alloc, scope, root, rest)
            }
        }
    }
}

/// The path that a header variable asks for: of `hdr.h.isValid()` that of the header.
fn asked_path(d: &Decl) -> &[Name]
    ensures { result.now ≡ asked_path (decl_of d.now) }
{
    if d.valid && d.path.len() == 3 {
        &d.path[..2]
    } else {
        &d.path
    }
}

/// Whether a number of the width stands there.
fn is_field_of(width: u8, st: &Stands) -> bool
    ensures { result ≡ is_field_of width (stands_of st.now) }
{
    match st {
        Stands::Typed(_, Thing::Scalar(Kind::Number(w))) => width == *w,
        _ => false,
    }
}

fn is_header(st: &Stands) -> bool
    ensures { result ≡ is_header (stands_of st.now) }
{
    match st {
        Stands::Typed(_, Thing::Header(_)) => true,
        _ => false,
    }
}

/// Whether what stands there is what the header variable reads.
fn fits(d: &Decl, st: &Stands) -> bool
    ensures { result ≡ fits (decl_of d.now).valid (decl_of d.now).shape (stands_of st.now) }
{
    if d.valid {
        return is_header(st);
    }
    match &d.shape {
        Shape::One(Ty::Bit(width)) => is_field_of(*width, st),
        _ => false,
    }
}

/// A name, and then each other behind a point.
#[tactic(auto, using(crate::proofs::Dots::dotted_tail))]
fn dotted_from(alloc: Global, first: &Name, rest: &[Name]) -> Result<Name, AllocError>
    ensures { IfOk result (λ x. x ≡ dotted (first.now ∷ rest.now)) }
{
    let mut text = String::from_str(alloc, first.as_str())?;
    for name in rest {
        text.push_str(".")?;
        text.push_str(name.as_str())?;
    }
    Name::new(alloc, text.as_str())
}

/// A path as it is written.
fn dotted(alloc: Global, path: &[Name]) -> Result<Name, AllocError>
    ensures { IfOk result (λ x. x ≡ dotted path.now) }
{
    match path {
        [] => Name::new(alloc, ""),
        [first, rest @ ..] => dotted_from(alloc, first, rest),
    }
}

/// Whether what stands there serves the declaration.
fn check_field(alloc: Global, st: &Stands, d: &Decl) -> Result<(), LinkFault>
    ensures none { IfOk result (λ _. field_fault (stands_of st.now) (decl_of d.now) ≡ None) }
    ensures cause { IfErr result (IsRefused (field_fault (stands_of st.now) (decl_of d.now))) }
{
    if st.is_missing() {
        let name = dotted(alloc, &d.path)?;
        return Err(LinkFault::NoSuchField { name });
    }
    if fits(d, st) {
        return Ok(());
    }
    let name = dotted(alloc, &d.path)?;
    Err(LinkFault::FieldWidth { name })
}

/// Whether the program has what a header variable reads.
fn check_decl(alloc: Global, scope: &Scope, program: &Program, d: &Decl) -> Result<(), LinkFault>
    ensures none { IfOk result (λ _. decl_fault (scope_of scope.now) (program_of program.now) (decl_of d.now) ≡ None) }
    ensures cause { IfErr result (IsRefused (decl_fault (scope_of scope.now) (program_of program.now) (decl_of d.now))) }
{
    match d.kind {
        DeclKind::Header => {
            let st = field_in(alloc, scope, program, asked_path(d))?;
            check_field(alloc, &st, d)
        }
        DeclKind::Tele => Ok(()),
        DeclKind::Sensor => Ok(()),
        DeclKind::Control => Ok(()),
    }
}

/// Whether the program has what the header variables of these declarations read, in this order.
pub fn check_fields(alloc: Global, program: &Program, decls: &[Decl]) -> Result<(), LinkFault>
    ensures none { IfOk result (λ _. fields_fault (program_scope (program_of program.now)) (program_of program.now) (map decl_of decls.now) ≡ None) }
    ensures cause { IfErr result (IsRefused (fields_fault (program_scope (program_of program.now)) (program_of program.now) (map decl_of decls.now))) }
{
    let mut scope = Scope::core(alloc);
    declare_firsts(&mut scope, &program.tops)?;
    for d in decls {
        check_decl(alloc, &scope, program, d)?;
    }
    Ok(())
}
