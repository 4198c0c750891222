//! Into a loop, and out of it again.

ghost use Rattle.std.specs.Prelude.{◌≡◌, ◌||◌, drop, false, IfOk, OnOk, map, not};
ghost use Rattle.std.specs.Option.{option_map};
ghost use Rattle.indus_tree.specs.View.{decl_of};
ghost use Rattle.indus_scopes.specs.NameTable.{texts};
ghost use Rattle.indus_scopes.specs.Items.{among, kind_at, repeats, within};
ghost use Rattle.indus_scopes.specs.Scopes.{role_of};
ghost use Rattle.indus_scopes.specs.Sights.{scope_of};
ghost use Rattle.indus_scopes.specs.Uses.{is_missing};

use crate::declared::Declared;
use crate::kind::Kind;
use crate::scope::{Loop, shape_item};
use crate::sight::Scope;
use crate::uses::is_missing;
use indexmap::IndexSet;
use lex_text::Name;
use std::alloc::{AllocError, Global};
use std::mem;

/// Whether a name is in the table.
fn is_there(table: &IndexSet<String>, name: &Name) -> bool
    ensures { result ≡ among (texts table.now.keys) name.now }
{
    table.contains(name.as_str())
}

/// Whether a name stands for something, or is in the table.
fn is_known(scope: &Scope, table: &IndexSet<String>, name: &Name) -> bool
    ensures { result ≡ (not (is_missing (role_of (scope_of scope.now) name.now)) || among (texts table.now.keys) name.now) }
{
    !is_missing(&scope.role(name)) || is_there(table, name)
}

/// Whether the name of an item stands for something already, or is there twice.
pub fn repeats(alloc: Global, scope: &Scope, names: &[Name]) -> Result<bool, AllocError>
    ensures { IfOk result (λ b. b ≡ repeats (scope_of scope.now) names.now) }
{
    let mut seen = IndexSet::new(alloc);
    for (i, x) in names.iter().enumerate() {
        if is_known(scope, &seen, x) {
            return Ok(true);
        }
        seen.insert(String::from_str(alloc, x.as_str())?)?;
    }
    Ok(false)
}

/// One item of a list.
fn kind_at(decls: &Declared, list: Option<&Name>) -> Kind
    ensures { result ≡ kind_at (map decl_of decls.now.decls.now) (option_map (λ l. l.now) list.entry) }
{
    match list {
        Some(l) => match decls.find(l) {
            Some(d) => shape_item(&d.shape),
            None => Kind::Unknown,
        },
        None => Kind::Unknown,
    }
}

/// What is in sight inside a loop.
fn within<'a>(
    alloc: Global,
    scope: Scope<'a>,
    names: &'a [Name],
    lists: &'a [Name],
) -> Result<Scope<'a>, AllocError>
    requires { repeats (scope_of scope) names.now ≡ false }
    ensures { IfOk result (λ s. scope_of s ≡ within (scope_of scope.entry) names.now lists.now) }
{
    let Scope {
        edition,
        decls,
        loops,
        block,
        items,
        kinds,
    } = scope;
    let mut items = items;
    let mut kinds = kinds;
    for (i, x) in names.iter().enumerate() {
        kinds.push(kind_at(&decls, lists.get(i)))?;
        items.insert(String::from_str(alloc, x.as_str())?)?;
    }
    let mut around = Vec::new(alloc);
    around.push(Loop { names, lists })?;
    for l in &loops {
        around.push(*l)?;
    }
    Ok(Scope {
        edition,
        decls,
        loops: around,
        block,
        items,
        kinds,
    })
}

/// What is in sight outside the innermost loop.
fn outside<'a>(scope: Scope<'a>) -> Scope<'a>
    ensures { scope_of result ≡ record (scope_of scope.entry) { loops = drop 1 (scope_of scope.entry).loops } }
{
    if scope.loops.is_empty() {
        return scope;
    }
    let Scope {
        edition,
        decls,
        loops,
        block,
        items,
        kinds,
    } = scope;
    let mut loops = loops;
    let mut items = items;
    let mut kinds = kinds;
    let inner = loops.remove(0);
    let left = items.len().saturating_sub(inner.names.len());
    items.truncate(left);
    kinds.truncate(left);
    Scope {
        edition,
        decls,
        loops,
        block,
        items,
        kinds,
    }
}

/// Goes into a loop whose items have new names.
pub fn enter<'a>(
    alloc: Global,
    scope: &mut Scope<'a>,
    names: &'a [Name],
    lists: &'a [Name],
) -> Result<(), AllocError>
    requires { repeats (scope_of scope.old) names.now ≡ false }
    ensures { OnOk result (scope_of scope.new ≡ within (scope_of scope.old) names.now lists.now) }
{
    let empty = Scope::new(alloc, scope.edition, scope.decls, scope.block);
    *scope = within(alloc, mem::replace(scope, empty), names, lists)?;
    Ok(())
}

/// Comes out of the innermost loop.
pub fn leave(alloc: Global, scope: &mut Scope)
    ensures { scope_of scope.new ≡ record (scope_of scope.old) { loops = drop 1 (scope_of scope.old).loops } }
{
    let empty = Scope::new(alloc, scope.edition, scope.decls, scope.block);
    *scope = outside(mem::replace(scope, empty));
}
