//! Declarations at top level where of those of one name the first counts.

ghost use Rattle.std.specs.Prelude.{◌≡◌, IfOk, map};
ghost use Rattle.p4_tree.specs.View.{top_of};
ghost use Rattle.p4_scopes.specs.View.{scope_of};
ghost use Rattle.p4_declaration_rules.specs.Firsts.{top_name, first_top, first_tops};

use crate::controls::declare_top;
use lex_text::Name;
use p4_scopes::scope::Scope;
use p4_tree::Top;
use std::alloc::AllocError;

/// The name that is declared.
fn top_name(top: &Top) -> &Name
    ensures { result.now ≡ top_name (top_of top.now) }
{
    match top {
        Top::Const(_, _, name, _) => name,
        Top::Typedef(_, _, name) => name,
        Top::Header(_, name, _) => name,
        Top::Struct(_, name, _) => name,
        Top::Reg(_, register) => &register.name,
        Top::Pars(_, parser) => &parser.name,
        Top::Ctl(_, control) => &control.name,
    }
}

/// Puts into sight what a declaration declares, where its name is not in sight.
fn declare_first<'a>(scope: &mut Scope<'a>, top: &'a Top) -> Result<(), AllocError>
    ensures { IfOk result (λ _. scope_of scope.new
        ≡ first_top (scope_of scope.old) (top_of top.now)) }
{
    if scope.find_name(top_name(top)).is_missing() {
        return declare_top(scope, top);
    }
    Ok(())
}

/// Puts into sight what declarations declare, where of those of one name the first counts.
pub fn declare_firsts<'a>(scope: &mut Scope<'a>, tops: &'a [Top]) -> Result<(), AllocError>
    ensures { IfOk result (λ _. scope_of scope.new
        ≡ first_tops (scope_of scope.old) (map top_of tops.now)) }
{
    for top in tops {
        declare_first(scope, top)?;
    }
    Ok(())
}
