//! What is tested of names that are declared, and of types.

ghost use Rattle.std.specs.Prelude.{◌≡◌};
ghost use Rattle.p4_scopes.specs.View.{scope_of};
ghost use Rattle.p4_statement_rules.specs.Ranks.{first_from};
ghost use Rattle.p4_statement_rules.specs.Expressions.{new_tests, bad_width, type_tests, scalar_tests, cast_type_tests};

use crate::found::Found;
use crate::rule::ProgramRule;
use lex_text::Name;
use p4_scopes::scope::Scope;
use p4_tree::PTy;

/// Adds the test of a name that is declared.
pub fn check_new(found: &mut Found, at: u32, scope: &Scope, name: &Name)
    ensures { found.new.first
        ≡ first_from found.old.first (new_tests at (scope_of scope.now) name.now) }
{
    found.test(
        at,
        ProgramRule::NameTwice,
        !scope.find_name(name).is_missing(),
    );
}

/// Whether no number has this width.
fn bad_width(width: u8) -> bool
    ensures { result ≡ bad_width width }
{
    width == 0 || width > 128
}

/// Adds the tests of a type.
pub fn check_type(found: &mut Found, at: u32, scope: &Scope, t: &PTy)
    ensures { found.new.first
        ≡ first_from found.old.first (type_tests at (scope_of scope.now) t.now) }
{
    match t {
        PTy::Bit(width) => found.test(at, ProgramRule::BadSize, bad_width(*width)),
        PTy::Bool => {}
        PTy::Named(name) => {
            let stands = scope.find_name(name);
            found.test(at, ProgramRule::NoSuchName, stands.is_missing());
            found.test(at, ProgramRule::KindDiffers, !stands.is_type());
        }
    }
}

/// Adds the tests of a type of single values.
pub fn check_scalar(found: &mut Found, at: u32, scope: &Scope, t: &PTy)
    ensures { found.new.first
        ≡ first_from found.old.first (scalar_tests at (scope_of scope.now) t.now) }
{
    check_type(found, at, scope, t);
    found.test(at, ProgramRule::KindDiffers, !scope.thing_in(t).is_scalar());
}

/// Adds the tests of a cast's type, which is named by no typedef.
pub fn check_cast_type(found: &mut Found, at: u32, t: &PTy)
    ensures { found.new.first ≡ first_from found.old.first (cast_type_tests at t.now) }
{
    match t {
        PTy::Bit(width) => found.test(at, ProgramRule::BadSize, bad_width(*width)),
        PTy::Bool => {}
        PTy::Named(_) => found.test(at, ProgramRule::KindDiffers, true),
    }
}
