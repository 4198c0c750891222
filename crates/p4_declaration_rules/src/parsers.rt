//! What is tested of parsers, and of the parameters of parsers and controls.

ghost use Rattle.std.specs.Prelude.{◌≡◌, ◌≤◌, List, false, IfOk, get_or, map, length, take};
ghost use Rattle.p4_tree.specs.Tree as tree;
ghost use Rattle.p4_tree.specs.View.{state_of, parser_of};
ghost use Rattle.p4_scopes.specs.View.{scope_of};
ghost use Rattle.p4_statement_rules.specs.Ranks.{first_from};
ghost use Rattle.p4_parser_states.specs.Cycles.{is_on_cycle};
ghost use Rattle.p4_declaration_rules.specs.Parsers.{way_access, with_ways, ways_tests, with_state, with_ends, with_states, states_names, state_tests, states_tests, start_tests, parser_tests};
ghost use Rattle.p4_declaration_rules.specs.Loops.{IsNameTable};

use crate::transitions::{ACCEPT, REJECT, check_onto, check_transition, is_state_name};
use indexmap::IndexSet;
use lex_text::Name;
use p4_parser_states::on_cycles;
use p4_scopes::scope::Scope;
use p4_scopes::thing::Access;
use p4_scopes::what::What;
use p4_statement_rules::found::Found;
use p4_statement_rules::rule::{Part, ProgramRule};
use p4_statement_rules::statements::check_block;
use p4_statement_rules::types::{check_new, check_type};
use p4_tree::{Param, Parser, ParserState, Way};
use std::alloc::{AllocError, Global};

/// Who may write a parameter.
pub fn way_access(way: Way) -> Access
    ensures { result ≡ way_access way }
{
    match way {
        Way::Into => Access::Fixed,
        Way::Plain | Way::Out | Way::Both => Access::Writable,
    }
}

/// Adds the tests of the parameters of a parser or a control, and puts them into sight.
pub(crate) fn check_ways<'a>(
    found: &mut Found,
    scope: &mut Scope<'a>,
    params: &'a [Param],
) -> Result<(), AllocError>
    ensures found { IfOk result (λ _. found.new.first
        ≡ first_from found.old.first (ways_tests (scope_of scope.old) params.now)) }
    ensures declared { IfOk result (λ _. scope_of scope.new
        ≡ with_ways (scope_of scope.old) params.now) }
    ensures kept { IfOk result (λ _. take (length scope.old) scope.new ≡ scope.old) }
    ensures longer { IfOk result (λ _. length scope.old ≤ length scope.new) }
{
    for p in params {
        check_new(found, p.at, scope, &p.name);
        check_type(found, p.at, scope, &p.ty);
        scope.declare(&p.name, What::Value(way_access(p.way), &p.ty))?;
    }
    Ok(())
}

/// Puts a name of a state into sight, where it stands for nothing.
fn declare_state<'a>(alloc: Global, scope: &mut Scope<'a>, name: &'a str) -> Result<(), AllocError>
    ensures declared { IfOk result (λ _. scope_of scope.new ≡ with_state (scope_of scope.old) name.now) }
    ensures kept { IfOk result (λ _. take (length scope.old) scope.new ≡ scope.old) }
    ensures longer { IfOk result (λ _. length scope.old ≤ length scope.new) }
{
    let known = Name::new(alloc, name)?;
    if scope.find_name(&known).is_missing() {
        scope.declare_text(name, What::State)?;
    }
    Ok(())
}

/// Puts the states that each parser has into sight.
fn declare_ends<'a>(alloc: Global, scope: &mut Scope<'a>) -> Result<(), AllocError>
    ensures declared { IfOk result (λ _. scope_of scope.new ≡ with_ends (scope_of scope.old)) }
    ensures kept { IfOk result (λ _. take (length scope.old) scope.new ≡ scope.old) }
    ensures longer { IfOk result (λ _. length scope.old ≤ length scope.new) }
{
    declare_state(alloc, scope, ACCEPT)?;
    declare_state(alloc, scope, REJECT)
}

/// Adds the tests of the names of states, and puts them into sight.
fn check_names<'a>(
    found: &mut Found,
    scope: &mut Scope<'a>,
    states: &'a [ParserState],
) -> Result<(), AllocError>
    ensures found { IfOk result (λ _. found.new.first
        ≡ first_from found.old.first (states_names (scope_of scope.old) (map state_of states.now))) }
    ensures declared { IfOk result (λ _. scope_of scope.new
        ≡ with_states (scope_of scope.old) (map state_of states.now)) }
    ensures kept { IfOk result (λ _. take (length scope.old) scope.new ≡ scope.old) }
    ensures longer { IfOk result (λ _. length scope.old ≤ length scope.new) }
{
    for state in states {
        check_new(found, state.at, scope, &state.name);
        declare_state(found.alloc(), scope, state.name.as_str())?;
    }
    Ok(())
}

/// A table of the names of states.
fn state_table<'a>(
    alloc: Global,
    states: &'a [ParserState],
) -> Result<IndexSet<&'a str>, AllocError>
    ensures { IfOk result (λ table. IsNameTable table.keys (map state_of states.now)) }
{
    let mut table = IndexSet::new(alloc);
    for state in states {
        table.insert(state.name.as_str())?;
    }
    Ok(table)
}

/// Adds the tests of a state. The names in sight stay as they were.
fn check_state<'a>(
    found: &mut Found,
    scope: &mut Scope<'a>,
    names: &IndexSet<&str>,
    cyclic: bool,
    state: &'a ParserState,
) -> Result<(), AllocError>
    ensures found { IfOk result (λ _. (all : List tree.ParserState) → IsNameTable names.now.keys all
        → cyclic ≡ is_on_cycle all (state_of state.now)
        → found.new.first ≡ first_from found.old.first
        (state_tests all (scope_of scope.old) (state_of state.now))) }
    ensures kept { IfOk result (λ _. scope.new ≡ scope.old) }
{
    found.test(state.at, ProgramRule::ParserCycle, cyclic);
    check_block(found, Part::State, scope, &state.body)?;
    check_transition(found, scope, names, &state.next)
}

/// The answer for the state of a number.
fn answer(cyclic: &[bool], i: usize) -> bool
    ensures { result ≡ get_or cyclic.now i false }
{
    match cyclic.get(i) {
        Some(is_cyclic) => *is_cyclic,
        None => false,
    }
}

/// Adds the tests of states, for each of which it is known whether it reaches itself.
fn check_each<'a>(
    found: &mut Found,
    scope: &mut Scope<'a>,
    names: &IndexSet<&str>,
    cyclic: &[bool],
    states: &'a [ParserState],
) -> Result<(), AllocError>
    ensures found { IfOk result (λ _. (all : List tree.ParserState) → IsNameTable names.now.keys all
        → cyclic.now ≡ map (is_on_cycle all) (map state_of states.now)
        → found.new.first ≡ first_from found.old.first
        (states_tests all (scope_of scope.old) (map state_of states.now))) }
    ensures kept { IfOk result (λ _. scope.new ≡ scope.old) }
{
    for (i, state) in states.iter().enumerate() {
        check_state(found, scope, names, answer(cyclic, i), state)?;
    }
    Ok(())
}

/// Adds the tests of states, of which this is the table of names.
fn check_states<'a>(
    found: &mut Found,
    scope: &mut Scope<'a>,
    names: &IndexSet<&str>,
    states: &'a [ParserState],
) -> Result<(), AllocError>
    ensures found { IfOk result (λ _. IsNameTable names.now.keys (map state_of states.now)
        → found.new.first ≡ first_from found.old.first
        (states_tests (map state_of states.now) (scope_of scope.old) (map state_of states.now))) }
    ensures kept { IfOk result (λ _. scope.new ≡ scope.old) }
{
    let cyclic = on_cycles(found.alloc(), states)?;
    check_each(found, scope, names, &cyclic, states)
}

/// The name of the state in which a parser begins.
const START: &str = "start";

/// Adds the test that a parser has the state in which it begins.
fn check_start(
    found: &mut Found,
    at: u32,
    scope: &Scope,
    names: &IndexSet<&str>,
) -> Result<(), AllocError>
    ensures { IfOk result (λ _. (all : List tree.ParserState) → IsNameTable names.now.keys all
        → found.new.first ≡ first_from found.old.first (start_tests at (scope_of scope.now) all)) }
{
    let start = Name::new(found.alloc(), START)?;
    check_onto(
        found,
        at,
        is_state_name(names, &start),
        &scope.find_name(&start),
    );
    Ok(())
}

/// Adds the tests of a parser. The names in sight stay as they were.
pub(crate) fn check_parser<'a>(
    found: &mut Found,
    scope: &mut Scope<'a>,
    parser: &'a Parser,
) -> Result<(), AllocError>
    ensures found { IfOk result (λ _. found.new.first
        ≡ first_from found.old.first (parser_tests (scope_of scope.old) (parser_of parser.now))) }
    ensures kept { IfOk result (λ _. scope.new ≡ scope.old) }
{
    check_new(found, parser.at, scope, &parser.name);
    let before = scope.mark();
    check_ways(found, scope, &parser.params)?;
    declare_ends(found.alloc(), scope)?;
    check_names(found, scope, &parser.states)?;
    let names = state_table(found.alloc(), &parser.states)?;
    check_start(found, parser.at, scope, &names)?;
    check_states(found, scope, &names, &parser.states)?;
    scope.back(before);
    Ok(())
}
