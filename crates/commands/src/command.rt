//! The commands, and what each does.

ghost use Rattle.std.specs.Prelude.{◌≡◌, ◌∷◌, [], MatchOption, None, Some, map, string_bytes};
ghost use Rattle.job_course.specs.Ending.{AnswersAll, AnswersCommand};
ghost use Rattle.commands.specs.Command.{command_of, course_of, load_of, said_by};
ghost use Rattle.commands.specs.Output.{Outputs};

use crate::check::CheckSteps;
use crate::forward::ForwardSteps;
use crate::link::LinkSteps;
use crate::load::{LoadSteps, number_of};
use crate::run::RunSteps;
use crate::wire::WireSteps;
use command_steps::answer;
use job_course::Status;
use outside::{Sink, Store};
use simplify_rules::RuleSet;
use std::alloc::Global;
use switch_benches::Bench;

/// A command line.
#[derive(Clone, Copy)]
pub enum Command<'a> {
    /// `wire PROPERTY FRAME OUT`
    Wire(&'a str, &'a str, &'a str),
    /// `check PROPERTY`
    Check(&'a str),
    /// `forward CASE OUT`
    Forward(&'a str, &'a str),
    /// `run CASE OUT`
    Run(&'a str, &'a str),
    /// `link CASE OUT`
    Link(&'a str, &'a str),
    /// `load N OUT`
    Load(u64, &'a str),
}

/// The command that the words are, if they are one.
pub fn read_words<'a>(words: &'a [String]) -> Option<Command<'a>>
    ensures { MatchOption result (command_of (map string_bytes words.now) ≡ None) (λ c. command_of (map string_bytes words.now) ≡ Some (said_by c)) }
{
    match words {
        [word, property, frame, out] => read_four(word, property, frame, out),
        [word, case, out] => read_three(word, case, out),
        [word, property] => read_two(word, property),
        _ => None,
    }
}

fn read_four<'a>(word: &str, property: &'a str, frame: &'a str, out: &'a str) -> Option<Command<'a>>
    ensures { let words = word.now ∷ property.now ∷ frame.now ∷ out.now ∷ [] in
        MatchOption result (command_of words ≡ None) (λ c. command_of words ≡ Some (said_by c)) }
{
    if word == "wire" {
        Some(Command::Wire(property, frame, out))
    } else {
        None
    }
}

fn read_three<'a>(word: &str, case: &'a str, out: &'a str) -> Option<Command<'a>>
    ensures { let words = word.now ∷ case.now ∷ out.now ∷ [] in
        MatchOption result (command_of words ≡ None) (λ c. command_of words ≡ Some (said_by c)) }
{
    if word == "forward" {
        Some(Command::Forward(case, out))
    } else if word == "run" {
        Some(Command::Run(case, out))
    } else if word == "link" {
        Some(Command::Link(case, out))
    } else if word == "load" {
        read_load_words(case, out)
    } else {
        None
    }
}

fn read_two<'a>(word: &str, property: &'a str) -> Option<Command<'a>>
    ensures { let words = word.now ∷ property.now ∷ [] in
        MatchOption result (command_of words ≡ None) (λ c. command_of words ≡ Some (said_by c)) }
{
    if word == "check" {
        Some(Command::Check(property))
    } else {
        None
    }
}

/// The number and the front of names of a made case, which has at most 4,096 bytes.
fn read_load_words<'a>(number: &str, out: &'a str) -> Option<Command<'a>>
    ensures { MatchOption result (load_of number.now out.now ≡ None) (λ c. load_of number.now out.now ≡ Some (said_by c)) }
{
    if out.len() > 4096 {
        return None;
    }
    match number_of(number) {
        None => None,
        Some(number) => Some(Command::Load(number, out)),
    }
}

/// Does what a command says.
pub fn answer_to<S: Store, K: Sink, B: Bench>(
    alloc: Global,
    store: &mut S,
    out: &mut K,
    bench: &mut B,
    command: Command<'_>,
    rules: &RuleSet,
) -> Status
    ensures answer { AnswersCommand Outputs (course_of (said_by command.entry)) (S.state store.old) (S.state store.new) (K.state out.old) (K.state out.new) result }
    ensures complete { AnswersAll (course_of (said_by command.entry)) (S.state store.old) (S.state store.new) (K.state out.old) (K.state out.new) result }
{
    match command {
        Command::Wire(property, frame, name) => {
            let steps = WireSteps {
                property,
                frame,
                out: name,
                rules,
            };
            answer(alloc, store, out, bench, &steps)
        }
        Command::Check(property) => answer(alloc, store, out, bench, &CheckSteps { property }),
        Command::Forward(case, name) => {
            answer(alloc, store, out, bench, &ForwardSteps { case, out: name })
        }
        Command::Run(case, name) => {
            answer(
                alloc,
                store,
                out,
                bench,
                &RunSteps {
                    case,
                    out: name,
                    rules,
                },
            )
        }
        Command::Link(case, name) => {
            answer(
                alloc,
                store,
                out,
                bench,
                &LinkSteps {
                    case,
                    out: name,
                    rules,
                },
            )
        }
        Command::Load(number, name) => {
            answer(
                alloc,
                store,
                out,
                bench,
                &LoadSteps {
                    number,
                    out: name,
                    rules,
                },
            )
        }
    }
}
