//! What actions do on words, and on the arguments of a call.

ghost use Rattle.slot_terms.specs.Places.{places_of, IsLaid};

use crate::places::{ends, expression, holds, name, number, places, state, statements, width};
use bit_values::{Bits, sound_width};
use p4_parts::{Action, Taken};
use p4_tree::Expr;
use slot_statements::{
    Code, arguments as argument_terms, bind, bind_words, exec_all, flow_behind, masked, parameters,
    stmts_code,
};
use slot_terms::{Fault, Places, Term};
use std::alloc::Global;
use std::mem::forget;
use std::process::Abort;

/// Parameters with their bits, a body, words, and what the slots hold behind the action and how it ends; or
/// that it has no code. A word is cut or widened to its parameter, and is 0 where it is wanting; `-` stands
/// for none.
const ON_WORDS: &str = "\
- | a = 2; } | - => 2 64 513 171 99, go
x 8, y 4 | a = x; b = (bit<8>) y; } | 8w7 8w171 => 7 11 513 171 99, go
x 8, y 4 | a = x; b = (bit<8>) y; } | 8w7 => 7 0 513 171 99, go
x 8, y 4 | a = x; b = (bit<8>) y; } | - => 0 0 513 171 99, go
x 8 | a = x; } | 8w7 8w9 => 7 64 513 171 99, go
x 16 | c = x; } | 8w171 => 1 64 171 171 99, go
x 8 | a = x; x = 9; b = x; } | 8w7 => 7 9 513 171 99, go
x 8 | a = x; return; a = 9; } | 8w7 => 7 64 513 171 99, go
x 8 | a = x; exit; a = 9; } | 8w7 => 7 64 513 171 99, exit
x 8 | bit<8> v = x; a = v; } | 8w7 => 7 64 513 171 99, go
x 9 | standard_metadata.egress_spec = x; mark_to_drop(standard_metadata); c = (bit<16>) standard_metadata.egress_spec; } | 9w7 => 1 64 511 171 99, go
a 8 | b = a; } | 8w7 => unknown
x 8, x 8 | b = x; } | 8w7 8w8 => unknown
x 8 | a = y; } | 8w7 => unknown
x 8 | bit<8> x; } | 8w7 => unknown
x 8, y 8, z 8, w 8 | a = x; } | 8w7 => unknown
x 8, y 8, z 8 | bit<8> v; } | 8w7 => unknown";

/// The same on the arguments of a call.
const ON_ARGUMENTS: &str = "\
- | a = 2; } | - => 2 64 513 171 99, go
x 8, y 4 | a = x; b = (bit<8>) y; } | h.f, h.f => 171 11 513 171 99, go
x 8, y 8 | a = x; b = y; } | b, a => 64 1 513 171 99, go
x 8 | a = x; } | a - 2 => 255 64 513 171 99, go
x 16 | c = x; } | 65537 => 1 64 1 171 99, go
x 8 | a = x; return; a = 9; } | 7 => 7 64 513 171 99, go
x 8 | a = x; exit; a = 9; } | 7 => 7 64 513 171 99, exit
x 8 | a = x; } | - => unknown
x 8 | a = x; } | 7, 8 => unknown
x 8 | a = x; } | z => unknown
x 8, y 8 | a = x; } | 7, z => unknown
x 8, y 8 | a = y; } | 7, x => unknown
a 8 | b = a; } | 7 => unknown
x 8 | a = y; } | 7 => unknown
x 8, y 8, z 8, w 8 | a = x; } | 1, 2, 3, 4 => unknown";

/// A parameter with its bits.
fn parameter(rt: &impl Abort, alloc: Global, text: &str) -> Taken {
    let (x, bits) = text.split_once(' ').expect(rt, "a parameter");
    Taken {
        name: name(rt, alloc, x),
        width: width(rt, bits),
    }
}

/// An action of a name, parameters and a body.
pub fn action(rt: &impl Abort, alloc: Global, x: &str, params: &str, body: &str) -> Action {
    let mut all = Vec::new(alloc);
    if params != "-" {
        for text in params.split(", ") {
            all.push(parameter(rt, alloc, text)).expect(rt, "memory");
        }
    }
    Action {
        name: name(rt, alloc, x),
        params: all,
        body: statements(rt, alloc, body),
    }
}

/// Words with their widths.
fn words(rt: &impl Abort, alloc: Global, text: &str) -> Vec<Bits> {
    let mut all = Vec::new(alloc);
    if text != "-" {
        for word in text.split(' ') {
            let (bits, digits) = word.split_once('w').expect(rt, "a word");
            let word = Bits::new(128, number(rt, digits)).cast(sound_width(width(rt, bits)));
            all.push(word).expect(rt, "memory");
        }
    }
    all
}

/// Arguments.
fn arguments(rt: &impl Abort, alloc: Global, text: &str) -> Vec<Expr> {
    let mut all = Vec::new(alloc);
    if text != "-" {
        for text in text.split(", ") {
            all.push(expression(rt, alloc, text)).expect(rt, "memory");
        }
    }
    all
}

/// An action on words: the slots of its parameters with masks, and its body.
fn words_code(
    alloc: Global,
    places: &mut Places,
    a: &Action,
) -> Result<(Vec<(u32, u128)>, Vec<Code>), Fault>
    requires { IsLaid (places_of places.old) }
{
    let mut slots = Vec::new(alloc);
    masked(alloc, places, &a.params, &mut slots)?;
    let body = stmts_code(alloc, places, &a.body)?;
    Ok((slots, body))
}

/// An action on arguments: the slots of its parameters, the terms of the arguments, and its body.
fn call_code(
    alloc: Global,
    places: &mut Places,
    a: &Action,
    args: &[Expr],
) -> Result<(Vec<u32>, Vec<Term>, Vec<Code>), Fault>
    requires { IsLaid (places_of places.old) }
{
    let terms = argument_terms(alloc, places, &a.params, args)?;
    let mut slots = Vec::new(alloc);
    parameters(alloc, places, &a.params, &mut slots)?;
    let body = stmts_code(alloc, places, &a.body)?;
    Ok((slots, terms, body))
}

/// Whether an action does on words what is wanted.
fn acts_so(rt: &impl Abort, alloc: Global, tree: &Action, on: &str, wanted: &str) -> bool {
    let mut places = places(rt, alloc);
    let found = words_code(alloc, &mut places, tree);
    forget(places);
    match found {
        Ok((slots, body)) => {
            let mut s = state(rt, alloc);
            bind_words(&slots, &words(rt, alloc, on), &mut s);
            let flow = flow_behind(exec_all(&body, &mut s));
            let found = ends(rt, &s, flow, wanted);
            forget(body);
            forget(s);
            found
        }
        Err(Fault::Unknown) => wanted == "unknown",
        Err(Fault::NoMemory) => false,
    }
}

/// Whether a call of an action does what is wanted.
fn is_called_so(rt: &impl Abort, alloc: Global, tree: &Action, on: &str, wanted: &str) -> bool {
    let args = arguments(rt, alloc, on);
    let mut places = places(rt, alloc);
    let found = call_code(alloc, &mut places, tree, &args);
    forget(args);
    forget(places);
    match found {
        Ok((slots, terms, body)) => {
            let mut s = state(rt, alloc);
            bind(&slots, &terms, &mut s);
            let flow = flow_behind(exec_all(&body, &mut s));
            let found = ends(rt, &s, flow, wanted);
            forget(terms);
            forget(body);
            forget(s);
            found
        }
        Err(Fault::Unknown) => wanted == "unknown",
        Err(Fault::NoMemory) => false,
    }
}

/// A line is as it says, of words or of arguments.
fn line_holds(rt: &impl Abort, alloc: Global, line: &str, called: bool) {
    let (left, wanted) = line.split_once(" => ").expect(rt, "an end");
    let (params, left) = left.split_once(" | ").expect(rt, "parameters");
    let (body, on) = left.split_once(" | ").expect(rt, "a body");
    let tree = action(rt, alloc, "go", params, body);
    let found = if called {
        is_called_so(rt, alloc, &tree, on, wanted)
    } else {
        acts_so(rt, alloc, &tree, on, wanted)
    };
    forget(tree);
    holds(rt, found, line);
}

#[test]
fn actions_do(rt: HostRuntime) {
    for line in ON_WORDS.lines() {
        line_holds(&rt, rt.alloc(), line, false);
    }
}

#[test]
fn calls_do(rt: HostRuntime) {
    for line in ON_ARGUMENTS.lines() {
        line_holds(&rt, rt.alloc(), line, true);
    }
}
