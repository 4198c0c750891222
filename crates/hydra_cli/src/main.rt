//! Hydra: runtime verification of networks.
//!
//! `main` calls `hydra` of `commands` with the words of the command line, over the system's files and
//! standard output, a bench of switches over slots, and the three rules that simplify linked programs.
//!
//! Not promised: what the system's files and standard output hold.
#![tactic(auto)]

ghost use Rattle.std.specs.Prelude.{IfOk};
ghost use Rattle.p4_tree.specs.View.{expr_of};
ghost use Rattle.rewriting_laws.specs.Standing.{MayStandIfAny};

use commands::hydra;
use job_course::Status;
use lex_text::Name;
use outside::{RealSink, RealStore, Sink};
use p4_slots::SlotBench;
use p4_tree::Expr;
use simplify_rules::{Rewrite, Rule, RuleSet, drop_neutral, fold_choice, fold_numbers};
use std::alloc::{AllocError, Global};
use std::process::ExitCode;
use std::{env, io};

fn main(rt: HostRuntime) -> ExitCode {
    let alloc = rt.alloc();
    let mut out = RealSink::new(&rt);
    let Ok(numbers) = Box::new(alloc, move |e: &Expr| fold_numbers(alloc, e)) else {
        return starved(&mut out);
    };
    let Ok(choice) = Box::new(alloc, move |e: &Expr| fold_choice(alloc, e)) else {
        return starved(&mut out);
    };
    let Ok(neutral) = Box::new(alloc, move |e: &Expr| drop_neutral(alloc, e)) else {
        return starved(&mut out);
    };
    let mut rules = RuleSet::new(alloc);
    if add(alloc, &mut rules, "fold_numbers", numbers).is_err()
        || add(alloc, &mut rules, "fold_choice", choice).is_err()
        || add(alloc, &mut rules, "drop_neutral", neutral).is_err()
    {
        return starved(&mut out);
    }
    ExitCode::from(answer(&rt, &mut out, &rules) as u8)
}

/// Memory was wanting before a command was begun.
fn starved<K: Sink>(out: &mut K) -> ExitCode {
    let _ = out.put(b"hydra: memory\n");
    ExitCode::from(Status::NoMemory as u8)
}

/// Puts a rule behind the others.
fn add(alloc: Global, rules: &mut RuleSet, name: &str, rewrite: Rewrite) -> Result<(), AllocError>
    requires callable { Rewrite.IsAlwaysCallable rewrite }
    requires right { (e : _) (r : _) → Rewrite.post rewrite e r → IfOk r (MayStandIfAny (expr_of e.now)) }
{
    let name = Name::new(alloc, name)?;
    match rules.add(Rule::new(name, rewrite)) {
        Ok(()) => Ok(()),
        Err(_) => Err(AllocError),
    }
}

/// Does what the words of the command line say.
fn answer<K: Sink>(rt: &HostRuntime, out: &mut K, rules: &RuleSet) -> Status {
    match words(rt) {
        Ok(words) => {
            let mut store = RealStore::new(rt);
            hydra(rt.alloc(), &words, &mut store, out, &mut SlotBench, rules)
        }
        Err(Status::BadWords) => {
            let _ = out.put(b"hydra: words\n");
            Status::BadWords
        }
        Err(status) => {
            let _ = out.put(b"hydra: memory\n");
            status
        }
    }
}

/// The words behind the program's name. A word that isn't UTF-8 is a faulty command line.
fn words(rt: &HostRuntime) -> Result<Vec<String>, Status> {
    let args = match env::args(rt) {
        Ok(args) => args,
        Err(e) if matches!(e.kind(), io::ErrorKind::InvalidData) => return Err(Status::BadWords),
        Err(_) => return Err(Status::NoMemory),
    };
    match args.skip(1).collect(rt.alloc()) {
        Ok(words) => Ok(words),
        Err(_) => Err(Status::NoMemory),
    }
}
