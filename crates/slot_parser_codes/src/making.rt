//! The code of a program's parser.

ghost use Rattle.std.specs.Prelude.{◌≡◌, map, true, false, IfOk, IfErr, OnOk};
ghost use Rattle.p4_tree.specs.View.{arg_of, expr_of, state_of as tree_state_of, stmt_of};
ghost use Rattle.p4_tree.specs.Tree.{assign};
ghost use Rattle.p4_parts.specs.PartsIn.{parts_in};
ghost use Rattle.slot_terms.specs.declared.fault.Fault.TheVariants.{Unknown};
ghost use Rattle.slot_terms.specs.Places.{IsLaid, places_of};
ghost use Rattle.slot_terms.specs.Typed.{typed_of};
ghost use Rattle.slot_statements.specs.Codes.{set};
ghost use Rattle.slot_places.specs.ProgramPlaces.{AreProgramPlaces};
ghost use Rattle.slot_parsers.specs.Code.{parser_in, state_in, step_of};
ghost use Rattle.slot_parsers.specs.ParserCodes.{assigns};
ghost use Rattle.slot_parsers.specs.Parses.{AreStatesOf, DoesStep, DoSteps, IsStateOf, Parses, are_named, heads_of};
ghost use Rattle.slot_parsers.specs.Extracts.{DoesAssign, call_of, extract_of};
ghost use Rattle.slot_parser_codes.specs.KnownParsers.{are_known_states, are_known_stmts, is_known_parser, is_known_state, is_known_stmt};

use crate::selects::{next_code, push, state_number, target};
use lex_text::Name;
use p4_parts::{Parts, is_assignable};
use p4_tree::{Arg, Expr, ParserState, Stmt};
use slot_parsers::{ParserCode, StateCode, Step};
use slot_statements::Code;
use slot_terms::{Fault, Places, Typed, header_number, place_at, term_in_place};
use std::alloc::{AllocError, Global};

/// The step that gives a slot a value.
fn set_step(slot: u32, header: Option<u32>, t: Typed) -> Step
    ensures { step_of result ≡ assigns (set slot header (typed_of t).term) }
{
    Step::Assigns(Code::Set(slot, header, t.term))
}

/// The step of an assignment. To what no statement may write it does nothing.
fn assign_step(alloc: Global, places: &Places, path: &[Name], e: &Expr) -> Result<Step, Fault>
    requires { IsLaid (places_of places.now) }
    ensures does { IfOk result (λ c. DoesAssign (places_of places.now) (step_of c) path.now (expr_of e.now)) }
    ensures known { OnOk result (is_known_stmt (places_of places.now) (assign 0 path.now (expr_of e.now)) ≡ true) }
    ensures blames { IfErr result (λ f. f ≡ Unknown → is_known_stmt (places_of places.now) (assign 0 path.now (expr_of e.now)) ≡ false) }
{
    if is_assignable(path) {
        match place_at(places, path) {
            None => Err(Fault::Unknown),
            Some(row) => {
                let t = term_in_place(alloc, places, e, row.width)?;
                Ok(set_step(row.slot, row.header, t))
            }
        }
    } else {
        Ok(Step::Pass)
    }
}

/// The step of the extract of the header at a path; of none where there is no such header.
fn extract_step(places: &Places, path: &[Name]) -> Result<Step, AllocError>
    ensures { IfOk result (λ c. step_of c ≡ extract_of (places_of places.now) path.now) }
{
    match header_number(&places.headers, path)? {
        None => Ok(Step::Pass),
        Some(number) => Ok(Step::Takes(number)),
    }
}

/// The step of a call, which is an extract.
fn call_step(places: &Places, args: &[Arg]) -> Result<Step, AllocError>
    ensures { IfOk result (λ c. step_of c ≡ call_of (places_of places.now) (map arg_of args.now)) }
{
    match args {
        [] => Ok(Step::Pass),
        [first, rest @ ..] => match first {
            Arg::Many(_, _) => Ok(Step::Pass),
            Arg::One(_, e) => match e {
                Expr::Path(_, path) => match rest {
                    [] => extract_step(places, path),
                    [_second, _others @ ..] => Ok(Step::Pass),
                },
                Expr::Num(_, _) | Expr::Flag(_, _) | Expr::Valid(_, _) => Ok(Step::Pass),
                Expr::Applied(_, _, _) | Expr::ErrorName(_, _) => Ok(Step::Pass),
                Expr::Not(_, _) | Expr::Invert(_, _) | Expr::Negate(_, _) => Ok(Step::Pass),
                Expr::Bin(_, _, _, _) | Expr::Choice(_, _, _, _) => Ok(Step::Pass),
                Expr::Slice(_, _, _, _) | Expr::Cast(_, _, _) => Ok(Step::Pass),
            },
        },
    }
}

/// The step of a statement of a state.
fn step_code(alloc: Global, p: &Parts, places: &Places, st: &Stmt) -> Result<Step, Fault>
    requires { AreProgramPlaces (parts_in p.now) (places_of places.now) }
    ensures does { IfOk result (λ c. DoesStep (places_of places.now) (heads_of (parts_in p.now)) (parts_in p.now).headers (step_of c) (stmt_of st.now)) }
    ensures known { OnOk result (is_known_stmt (places_of places.now) (stmt_of st.now) ≡ true) }
    ensures blames { IfErr result (λ f. f ≡ Unknown → is_known_stmt (places_of places.now) (stmt_of st.now) ≡ false) }
{
    match st {
        Stmt::Assign(_, path, e) => assign_step(alloc, places, path, e),
        Stmt::Call(_, _, args) => Ok(call_step(places, args)?),
        Stmt::Nothing(_) | Stmt::Block(_, _) | Stmt::Var(_, _, _, _) => Ok(Step::Pass),
        Stmt::If(_, _, _, _) | Stmt::Return(_) | Stmt::Exit(_) => Ok(Step::Pass),
    }
}

/// The steps of a state.
fn steps_code(alloc: Global, p: &Parts, places: &Places, body: &[Stmt]) -> Result<Vec<Step>, Fault>
    requires { AreProgramPlaces (parts_in p.now) (places_of places.now) }
    ensures do_steps { IfOk result (λ v. DoSteps (places_of places.now) (heads_of (parts_in p.now)) (parts_in p.now).headers (map step_of v.items) (map stmt_of body.now)) }
    ensures known { OnOk result (are_known_stmts (places_of places.now) (map stmt_of body.now) ≡ true) }
    ensures blames { IfErr result (λ f. f ≡ Unknown → are_known_stmts (places_of places.now) (map stmt_of body.now) ≡ false) }
{
    let mut steps = Vec::new(alloc);
    for st in body {
        let c = step_code(alloc, p, places, st)?;
        push(&mut steps, c)?;
    }
    Ok(steps)
}

/// The code of a state.
fn state_code(
    alloc: Global,
    p: &Parts,
    places: &Places,
    st: &ParserState,
) -> Result<StateCode, Fault>
    requires { AreProgramPlaces (parts_in p.now) (places_of places.now) }
    ensures does { IfOk result (λ c. IsStateOf (places_of places.now) (heads_of (parts_in p.now)) (parts_in p.now).headers (parts_in p.now).states (state_in c) (tree_state_of st.now)) }
    ensures known { OnOk result (is_known_state (places_of places.now) (tree_state_of st.now) ≡ true) }
    ensures blames { IfErr result (λ f. f ≡ Unknown → is_known_state (places_of places.now) (tree_state_of st.now) ≡ false) }
{
    let steps = steps_code(alloc, p, places, &st.body)?;
    let next = next_code(alloc, places, &p.states, &st.next)?;
    Ok(StateCode { steps, next })
}

/// The codes of states.
fn states_code(
    alloc: Global,
    p: &Parts,
    places: &Places,
    states: &[ParserState],
) -> Result<Vec<StateCode>, Fault>
    requires { AreProgramPlaces (parts_in p.now) (places_of places.now) }
    ensures do_states { IfOk result (λ v. AreStatesOf (places_of places.now) (heads_of (parts_in p.now)) (parts_in p.now).headers (parts_in p.now).states (map state_in v.items) (map tree_state_of states.now)) }
    ensures known { OnOk result (are_known_states (places_of places.now) (map tree_state_of states.now) ≡ true) }
    ensures blames { IfErr result (λ f. f ≡ Unknown → are_known_states (places_of places.now) (map tree_state_of states.now) ≡ false) }
{
    let mut codes = Vec::new(alloc);
    for st in states {
        let c = state_code(alloc, p, places, st)?;
        push(&mut codes, c)?;
    }
    Ok(codes)
}

/// Whether no two states have one name.
fn are_named(states: &[ParserState]) -> Result<bool, AllocError>
    ensures { IfOk result (λ b. b ≡ are_named (map tree_state_of states.now)) }
{
    let mut left = states;
    loop {
        match left {
            [] => return Ok(true),
            [st, rest @ ..] => {
                if state_number(rest, &st.name)?.is_some() {
                    return Ok(false);
                }
                left = rest;
            }
        }
    }
}

/// The code of a program's parser, by the places of the program. `Unknown` where two states have one
/// name, or where a path that is read or written has no place.
pub fn parser_code(alloc: Global, p: &Parts, places: &Places) -> Result<ParserCode, Fault>
    requires { AreProgramPlaces (parts_in p.now) (places_of places.now) }
    ensures parses { IfOk result (λ c. Parses (places_of places.now) (heads_of (parts_in p.now)) (parts_in p.now) (parser_in c)) }
    ensures known { OnOk result (is_known_parser (places_of places.now) (parts_in p.now).states ≡ true) }
    ensures blames { IfErr result (λ f. f ≡ Unknown → is_known_parser (places_of places.now) (parts_in p.now).states ≡ false) }
{
    if !are_named(&p.states)? {
        return Err(Fault::Unknown);
    }
    let start = Name::new(alloc, "start")?;
    let start = target(&p.states, &start)?;
    let states = states_code(alloc, p, places, &p.states)?;
    Ok(ParserCode { states, start })
}
