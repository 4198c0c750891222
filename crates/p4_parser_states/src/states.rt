//! The states of a parser, as a graph of the numbers of their names.

ghost use Rattle.std.specs.Prelude.{◌≡◌, ℕ, ◌<◌, List, [], ◌∷◌, ◌++◌, map, length, string_bytes, IfOk, OnOk, IfSome};
ghost use Rattle.std.specs.List.{filter_map};
ghost use Rattle.p4_tree.specs.View.{state_of, transition_of};
ghost use Rattle.p4_parser_states.specs.Cycles.{targets, is_on_cycle};
ghost use Rattle.p4_parser_states.specs.Graphs.{In, Follows, graph_of};
ghost use Rattle.p4_parser_states.specs.Numbers.{number_in, add_state, HasSteps, answer_at};

use crate::search;
use indexmap::IndexSet;
use lex_text::Name;
use p4_tree::{ParserState, Transition};
use std::alloc::{AllocError, Global};

/// The names of the states, each once.
fn names_of(alloc: Global, states: &[ParserState]) -> Result<IndexSet<String>, AllocError>
    ensures { IfOk result (λ names. (x : List ℕ) → In x (map (λ st. st.name) states.now)
        → In x (map string_bytes names.keys)) }
{
    let mut names = IndexSet::new(alloc);
    for state in states {
        names.insert(String::from_str(alloc, state.name.as_str())?)?;
    }
    Ok(names)
}

/// The number of a name, where it is a state's.
fn number_of(names: &IndexSet<String>, name: &Name) -> Option<usize>
    ensures number { result ≡ number_in names.now.keys name.now }
    ensures within { IfSome result (λ i. i < length names.now.keys) }
{
    names.get_index_of(name.as_str())
}

/// Puts the number of a name at the end, where it is a state's.
fn add_name(row: &mut Vec<usize>, names: &IndexSet<String>, name: &Name) -> Result<(), AllocError>
    ensures { OnOk result (row.new.items
        ≡ row.old.items ++ filter_map (number_in names.now.keys) (name.now ∷ [])) }
{
    match number_of(names, name) {
        Some(number) => row.push(number)?,
        None => {}
    }
    Ok(())
}

/// Puts the numbers of the states that a transition names at the end.
fn add_targets(
    row: &mut Vec<usize>,
    names: &IndexSet<String>,
    next: &Transition,
) -> Result<(), AllocError>
    ensures { OnOk result (row.new.items ≡ row.old.items
        ++ filter_map (number_in names.now.keys) (targets (transition_of next.now))) }
{
    match next {
        Transition::None(_) => {}
        Transition::To(_, name) => add_name(row, names, name)?,
        Transition::Select(_, _, cases) => {
            for case in cases {
                add_name(row, names, &case.1)?;
            }
        }
    }
    Ok(())
}

/// Adds where a state leads.
fn add_state(
    follows: &mut Vec<Vec<usize>>,
    names: &IndexSet<String>,
    state: &ParserState,
) -> Result<(), AllocError>
    requires { length follows.old.items ≡ length names.now.keys }
    ensures added { OnOk result (graph_of follows.new.items ≡ add_state (number_in names.now.keys)
        (graph_of follows.old.items) (state_of state.now)) }
    ensures len { OnOk result (length follows.new.items ≡ length follows.old.items) }
{
    match number_of(names, &state.name) {
        Some(from) => add_targets(&mut follows[from], names, &state.next)?,
        None => {}
    }
    Ok(())
}

/// A graph in which nothing follows.
fn empty_graph(alloc: Global, size: usize) -> Result<Vec<Vec<usize>>, AllocError>
    ensures none { IfOk result (λ follows. (i j : ℕ) → Follows (graph_of follows.items) i j → ⊥) }
    ensures len { IfOk result (λ follows. length follows.items ≡ size) }
{
    let mut follows = Vec::new(alloc);
    for _i in 0..size {
        let row = Vec::new(alloc);
        follows.push(row)?;
    }
    Ok(follows)
}

/// The graph of the numbers of the names.
fn graph(
    alloc: Global,
    states: &[ParserState],
    names: &IndexSet<String>,
) -> Result<Vec<Vec<usize>>, AllocError>
    ensures steps { IfOk result (λ follows.
        HasSteps (number_in names.now.keys) (map state_of states.now) (graph_of follows.items)) }
    ensures len { IfOk result (λ follows. length follows.items ≡ length names.now.keys) }
{
    let mut follows = empty_graph(alloc, names.len())?;
    for state in states {
        add_state(&mut follows, names, state)?;
    }
    Ok(follows)
}

/// The answer for the number of a state's name.
fn answer(names: &IndexSet<String>, cyclic: &[bool], name: &Name) -> bool
    requires { length cyclic.now ≡ length names.now.keys }
    ensures { result ≡ answer_at cyclic.now (number_in names.now.keys name.now) }
{
    match number_of(names, name) {
        Some(number) => cyclic[number],
        None => false,
    }
}

/// The answers for the numbers of the states' names.
fn answers_of(
    alloc: Global,
    states: &[ParserState],
    names: &IndexSet<String>,
    cyclic: &[bool],
) -> Result<Vec<bool>, AllocError>
    requires { length cyclic.now ≡ length names.now.keys }
    ensures { IfOk result (λ answers. answers.items
        ≡ map (λ st. answer_at cyclic.now (number_in names.now.keys st.name)) states.now) }
{
    let mut answers = Vec::new(alloc);
    for state in states {
        answers.push(answer(names, cyclic, &state.name))?;
    }
    Ok(answers)
}

/// For each state, whether one step or more lead from it back to it.
pub fn on_cycles(alloc: Global, states: &[ParserState]) -> Result<Vec<bool>, AllocError>
    ensures { IfOk result (λ answers.
        answers.items ≡ map (is_on_cycle (map state_of states.now)) (map state_of states.now)) }
{
    let names = names_of(alloc, states)?;
    let follows = graph(alloc, states, &names)?;
    let cyclic = search::on_cycles(alloc, &follows)?;
    let answers = answers_of(alloc, states, &names, &cyclic)?;
    Ok(answers)
}
