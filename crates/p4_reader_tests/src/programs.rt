//! Texts of programs with their trees, and one that is cut behind each of its tokens. Texts that spell none stand as rows
//! of `forward` under `tests/` at the top of the repository.

ghost use Rattle.std.specs.Prelude.{◌≤◌, length, IfOk};
ghost use Rattle.p4_tree.specs.View.{program_of};
ghost use Rattle.p4_printer.specs.CanSpell.{CanSpell};

use crate::samples::{
    ACROSS, ACROSS_WORDS, BASIC_WORDS, FORWARDING, FORWARDING_WORDS, FRONT, LONG_DROPPED,
};
use crate::show::{put, same};
use lex_text::{Words, tokens};
use p4_decls::{ProgramFault, read_program};
use p4_printer::print_program;
use p4_tree::Program;
use sample_programs::BASIC;
use std::alloc::Global;
use std::mem::forget;
use std::process::Abort;

/// The program of a text.
pub fn read(rt: &impl Abort, alloc: Global, text: &[u8]) -> Result<Program, ProgramFault>
    ensures { IfOk result (λ p. CanSpell (program_of p)) }
{
    assert!(rt; text.len() <= 1048576);
    read_program(alloc, text)
}

/// The program of a text that spells one. Programs are let go of at the end, since to drop one costs the
/// proof more than all else.
pub fn sample(rt: &impl Abort, alloc: Global, text: &str) -> Program
    ensures { CanSpell (program_of result) }
{
    read(rt, alloc, text.as_bytes()).expect(rt, "a sample")
}

/// Whether no program goes on with this token of a text.
fn is_dead_at(rt: &impl Abort, alloc: Global, text: &[u8], at: usize) -> bool {
    match read(rt, alloc, text) {
        Ok(program) => {
            forget(program);
            false
        }
        Err(fault) => match &fault {
            ProgramFault::Syntax { at: found } => *found as usize == at,
            _ => false,
        },
    }
}

/// A text without its spaces.
fn without_spaces(rt: &impl Abort, alloc: Global, text: &str) -> String {
    let mut out = String::new(alloc);
    for word in text.split_whitespace() {
        put(rt, &mut out, word);
    }
    out
}

/// What a printed program begins with, which is no part of its tree.
const INCLUSIONS: &str = "#include <core.p4>\n#include <v1model.p4>\n";

/// The program of a text is printed with these words, whatever stands between them.
fn prints(rt: &impl Abort, alloc: Global, program: &Program, words: &str, text: &str)
    requires { CanSpell (program_of program.now) }
{
    let printed = print_program(alloc, program).expect(rt, "memory");
    let tokens = printed
        .as_str()
        .strip_prefix(INCLUSIONS)
        .expect(rt, "inclusions");
    let found = without_spaces(rt, alloc, tokens);
    same(rt, &found, &without_spaces(rt, alloc, words), text);
}

/// A program, places and all.
fn shown(rt: &impl Abort, alloc: Global, program: &Program) -> String {
    format!(in alloc; "{program:?}").expect(rt, "memory")
}

/// A copy of a text's program is shown as the program is, places and all.
fn is_copied(rt: &impl Abort, alloc: Global, program: &Program, text: &str) {
    let copy = program.copy(alloc).expect(rt, "memory");
    let found = shown(rt, alloc, &copy);
    forget(copy);
    same(rt, &found, &shown(rt, alloc, program), text);
}

/// The text spells a program that is printed with these words, and copied.
pub fn spells(rt: &impl Abort, alloc: Global, text: &str, words: &str) {
    let program = sample(rt, alloc, text);
    prints(rt, alloc, &program, words, text);
    is_copied(rt, alloc, &program, text);
    forget(program);
}

/// Three pieces with two between them.
fn between(
    rt: &impl Abort,
    alloc: Global,
    pieces: &[&str; 3],
    first: &str,
    second: &str,
) -> String {
    let mut out = String::new(alloc);
    put(rt, &mut out, pieces[0]);
    put(rt, &mut out, first);
    put(rt, &mut out, pieces[1]);
    put(rt, &mut out, second);
    put(rt, &mut out, pieces[2]);
    out
}

/// With these statements of ingress and of egress, each with its words.
fn forwards(rt: &impl Abort, alloc: Global, ingress: (&str, &str), egress: (&str, &str)) {
    let text = between(rt, alloc, &FORWARDING, ingress.0, egress.0);
    let words = between(rt, alloc, &FORWARDING_WORDS, ingress.1, egress.1);
    spells(rt, alloc, &text, &words);
}

#[test]
fn samples(rt: HostRuntime) {
    let alloc = rt.alloc();
    let across = (ACROSS, ACROSS_WORDS);
    let out_by_two = (
        "standard_metadata.egress_spec = 2;",
        "standard_metadata . egress_spec = 2 ;",
    );
    let drops = (
        "mark_to_drop(standard_metadata);",
        "mark_to_drop ( standard_metadata ) ;",
    );
    forwards(&rt, alloc, across, ("", ""));
    forwards(&rt, alloc, across, ("exit;", "exit ;"));
    forwards(&rt, alloc, across, drops);
    forwards(&rt, alloc, out_by_two, ("", ""));
    forwards(&rt, alloc, LONG_DROPPED, ("", ""));
    let mut text = String::new(alloc);
    put(&rt, &mut text, FRONT);
    put(&rt, &mut text, BASIC);
    spells(&rt, alloc, &text, BASIC_WORDS);
}

#[test]
fn cut_after_each_token(rt: HostRuntime) {
    let text = BASIC.as_bytes();
    let list = tokens(rt.alloc(), text, Words::P4).expect(&rt, "tokens");
    let mut left: usize = 0;
    for token in &list {
        let end = token.end as usize;
        if end <= text.len() && left < list.len() {
            let start = token.start as usize;
            if start <= end {
                let front = &text[..start];
                assert!(rt; is_dead_at(&rt, rt.alloc(), front, left), "{left}");
            }
            left += 1;
        }
    }
    assert!(rt; left == list.len());
}
