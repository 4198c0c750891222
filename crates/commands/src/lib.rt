//! The commands of Hydra, runtime verification of networks.
//!
//! The program gets `hydra`, which does what the words of a command line say, over a store of files and
//! a sink of bytes: `run CASE OUT` links a property into a program and runs what is linked at every
//! switch of a network, over captures; `wire PROPERTY FRAME OUT` does so with the built-in program, on
//! three switches and for one raw frame; `forward CASE OUT` runs the program without a property; `link
//! CASE OUT` links and runs nothing; `load N OUT` makes a case from a number, writes it and runs it; and
//! `check PROPERTY` reads a property and says what it needs. `specs/Command`, `Output` and `Answers` are
//! read in this order.
#![tactic(auto)]

ghost use Rattle.std.specs.Prelude.{map, string_bytes};
ghost use Rattle.commands.specs.Command.{command_of};
ghost use Rattle.commands.specs.Answers.{Answers, IsComplete};

mod check;
mod command;
mod forward;
mod link;
mod load;
mod run;
mod wire;

use job_course::{Status, say};
use outside::{Sink, Store};
use simplify_rules::RuleSet;
use std::alloc::Global;
use switch_benches::Bench;

/// Does what the words say, over a store and a sink. `words` excludes the program's name. What a command runs at
/// the switches of a network are those of the bench, one for each switch, in the network's order. In linked
/// programs, values of their controls are those that the rules answer.
pub fn hydra<S: Store, K: Sink, B: Bench>(
    alloc: Global,
    words: &[String],
    store: &mut S,
    out: &mut K,
    bench: &mut B,
    rules: &RuleSet,
) -> Status
    // Each answer has its cause, and says what stands after it.
    ensures answer { Answers (command_of (map string_bytes words.now)) (S.state store.old) (S.state store.new) (K.state out.old) (K.state out.new) result }
    // A job is done, and a first refusal answered, unless a count rose or memory was wanting.
    ensures complete { IsComplete (command_of (map string_bytes words.now)) (S.state store.old) (S.state store.new) (K.state out.old) (K.state out.new) result }
{
    match command::read_words(words) {
        None => {
            say(out, b"hydra: words\n");
            Status::BadWords
        }
        Some(command) => command::answer_to(alloc, store, out, bench, command, rules),
    }
}
