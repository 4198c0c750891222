//! What the statements of a control do: calls of actions, applications of tables, registers and digests.

ghost use Rattle.std.specs.Prelude.{◌≡◌, ◌≤◌, [], length, vec_capacity, IfOk};
ghost use Rattle.program_tests.specs.Choices.{first_is, one_entry};

use crate::actions::action;
use crate::places::{ends, expression, holds, name, number, places, state, statements};
use bit_values::Bits;
use lex_text::Name;
use p4_parts::{Action, Cells as Declared, Chosen, Key, Table};
use p4_registers::Cells;
use slot_control_codes::{Callees, stmts_steps};
use slot_controls::{Externs, Step, most_digests, most_keys, run_steps};
use slot_statements::{NumberedOutcome, NumberedTables};
use slot_terms::Fault;
use std::alloc::{AllocError, Global};
use std::mem::forget;
use std::process::Abort;

/// Actions by their numbers, with their parameters and their bodies.
const ACTIONS: &str = "\
put | x 8, y 8 | a = x; b = y; }
add | x 8 | a = a + x; }
take | - | r.read(a, (bit<32>) b); }
keep | x 8 | r.write(1, x); }
tell | x 8 | digest(1, { x, a }); return; a = 9; }
leave | - | a = 9; exit; }
deep | x 8 | put(x, x); t.apply(); if (t.apply().hit) c = 1; c = c + 1; }
own | x 8 | bit<8> w = x + 1; a = w; }";

/// Statements, and what the slots hold behind them and how they end; and, where that is another than it was, what
/// the register `r` holds and the digests, each with its receiver and its values. Or that they have no code. The
/// key of the table `t` is `a`; where it is 7, `add` runs on 5, and else `take`.
const STEPS: &str = "\
put(b, a); } => 64 1 513 171 99, go
put(a + b, a); } => 65 1 513 171 99, go
put(a, b); put(b, a); } => 64 1 513 171 99, go
add(255); } => 0 64 513 171 99, go
add(1); add(a); add(a); } => 8 64 513 171 99, go
bit<8> v = 9; put(v, v + 1); } => 9 10 513 171 99, go
{ bit<8> v = 9; own(v); b = v; } } => 10 9 513 171 99, go
bit<8> u; bit<8> v; add(1); } => 2 64 513 171 99, go
bit<8> u; bit<8> v; own(1); } => unknown
b = 2; take(); } => 30 2 513 171 99, go
take(); } => 0 64 513 171 99, go
keep(7); } => 1 64 513 171 99, go | 10 7 30 40 | -
keep(7); r.read(c, 1); } => 1 64 7 171 99, go | 10 7 30 40 | -
tell(5); b = 2; } => 1 2 513 171 99, go | 10 20 30 40 | 1 5 1
tell(a); add(1); tell(a); } => 2 64 513 171 99, go | 10 20 30 40 | 1 1 1; 1 2 2
leave(); b = 2; } => 9 64 513 171 99, exit
deep(5); } => 1 64 514 171 99, go
none(z); } => 1 64 513 171 99, go
put(a); } => unknown
put(a, z); } => unknown
bit<8> y; put(a, b); } => unknown
t.apply(); } => 0 64 513 171 99, go
a = 7; t.apply(); } => 12 64 513 171 99, go
{ bit<8> v = 7; a = v; t.apply(); b = v; } } => 12 7 513 171 99, go
{ bit<8> v = 2; b = v; t.apply(); c = (bit<16>) v; } } => 30 2 2 171 99, go
if (a == 1) { bit<8> v = 7; a = v; if (t.apply().hit) b = 1; else b = 2; c = (bit<16>) v; } } => 12 1 7 171 99, go
{ bit<8> v = 7; if (t.apply().hit) b = 1; else b = v; } } => 0 7 513 171 99, go
{ bit<8> v = 7; if (!t.apply().hit) b = 1; else b = v; } } => 0 1 513 171 99, go
bit<8> u; bit<8> v; t.apply(); } => 0 64 513 171 99, go
bit<8> u; bit<8> v; bit<8> w; t.apply(); } => unknown
bit<8> x; t.apply(); } => unknown
s.apply(); } => 1 64 513 171 99, go
if (s.apply().hit) b = 1; else b = 2; } => 1 2 513 171 99, go
if (!s.apply().hit) b = 1; else b = 2; } => 1 1 513 171 99, go";

/// A table with an entry for the key 7, and its default, which has no words.
#[derive(Drop)]
pub struct OneEntry {
    pub action: u32,
    pub args: Vec<Bits>,
    pub default: u32,
}

/// Whether the first key is 7.
fn first_is_seven(keys: &[Bits]) -> bool
    ensures { result ≡ first_is 7 keys.now }
{
    match keys {
        [] => false,
        [key, ..] => key.value == 7,
    }
}

impl NumberedTables for OneEntry {
    ghost chosen = { λ t. one_entry t.action t.default t.args.items };

    fn choose<'a>(&'a self, _table: u32, keys: &[Bits]) -> NumberedOutcome<'a> {
        if first_is_seven(keys) {
            NumberedOutcome {
                action: self.action,
                args: &self.args,
                hit: true,
            }
        } else {
            NumberedOutcome {
                action: self.default,
                args: &[],
                hit: false,
            }
        }
    }
}

/// The actions, by their numbers.
fn actions(rt: &impl Abort, alloc: Global) -> Vec<Action> {
    let mut all = Vec::new(alloc);
    for line in ACTIONS.lines() {
        let (x, left) = line.split_once(" | ").expect(rt, "parameters");
        let (params, body) = left.split_once(" | ").expect(rt, "a body");
        all.push(action(rt, alloc, x, params, body))
            .expect(rt, "memory");
    }
    all
}

/// Names.
fn names(rt: &impl Abort, alloc: Global, text: &str) -> Vec<Name> {
    let mut all = Vec::new(alloc);
    for x in text.split(' ') {
        all.push(name(rt, alloc, x)).expect(rt, "memory");
    }
    all
}

/// The key of the table.
fn keys(rt: &impl Abort, alloc: Global) -> Vec<Key> {
    let mut all = Vec::new(alloc);
    all.push(Key {
        value: expression(rt, alloc, "a"),
        kind: name(rt, alloc, "exact"),
    })
    .expect(rt, "memory");
    all
}

/// The table.
fn tables(rt: &impl Abort, alloc: Global) -> Vec<Table> {
    let mut all = Vec::new(alloc);
    all.push(Table {
        name: name(rt, alloc, "t"),
        keys: keys(rt, alloc),
        actions: names(rt, alloc, "add tell"),
        default: Chosen {
            action: name(rt, alloc, "take"),
            args: Vec::new(alloc),
        },
        fixed: false,
    })
    .expect(rt, "memory");
    all
}

/// The register, which has four cells of 8 bits.
fn registers(rt: &impl Abort, alloc: Global) -> Vec<Declared> {
    let mut all = Vec::new(alloc);
    all.push(Declared {
        name: name(rt, alloc, "r"),
        width: 8,
        count: 4,
    })
    .expect(rt, "memory");
    all
}

/// What the register holds.
fn cells(rt: &impl Abort, alloc: Global) -> Vec<Cells> {
    let mut cells = Cells::new(alloc, 8, 4).expect(rt, "memory");
    for (at, value) in [10, 20, 30, 40].into_iter().enumerate() {
        cells.write(at as u128, Bits::new(8, value));
    }
    let mut all = Vec::new(alloc);
    all.push(cells).expect(rt, "memory");
    all
}

/// Room for so many digests.
fn externs(rt: &impl Abort, alloc: Global, most: usize) -> Externs
    ensures none { result.digests.items ≡ [] }
    ensures room { most ≤ vec_capacity result.digests }
{
    let registers = cells(rt, alloc);
    let digests = Vec::with_capacity(alloc, most).expect(rt, "memory");
    Externs { registers, digests }
}

/// So many words.
fn words(alloc: Global, count: usize) -> Result<Vec<Bits>, AllocError>
    ensures { IfOk result (λ v. length v.items ≡ count) }
{
    let mut all = Vec::with_capacity(alloc, count)?;
    all.resize(count, Bits::default())?;
    Ok(all)
}

/// The entry of the table.
fn entry(rt: &impl Abort, alloc: Global) -> OneEntry {
    let mut args = Vec::new(alloc);
    args.push(Bits::new(8, 5)).expect(rt, "memory");
    OneEntry {
        action: 1,
        args,
        default: 2,
    }
}

/// The register holds these numbers.
fn hold_cells(rt: &impl Abort, x: &Externs, numbers: &str) -> bool {
    let Some(cells) = x.registers.first() else {
        return false;
    };
    for (at, digits) in numbers.split(' ').enumerate() {
        if cells.read(at as u128).value != number(rt, digits) {
            return false;
        }
    }
    true
}

/// A digest has this receiver and these values.
fn is_told(rt: &impl Abort, receiver: u32, values: &[Bits], text: &str) -> bool {
    let mut numbers = text.split(' ');
    match numbers.next() {
        None => return false,
        Some(digits) => {
            if u128::from(receiver) != number(rt, digits) {
                return false;
            }
        }
    }
    let mut at = 0;
    for digits in numbers {
        let Some(value) = values.get(at) else {
            return false;
        };
        if value.value != number(rt, digits) {
            return false;
        }
        at += 1;
    }
    at == values.len()
}

/// These are the digests.
fn are_told(rt: &impl Abort, x: &Externs, text: &str) -> bool {
    let mut at = 0;
    if text != "-" {
        for told in text.split("; ") {
            match x.digests.get(at) {
                None => return false,
                Some(digest) => {
                    if !is_told(rt, digest.receiver, &digest.values, told) {
                        return false;
                    }
                }
            }
            at += 1;
        }
    }
    at == x.digests.len()
}

/// The register and the digests are as wanted.
fn are_beside(rt: &impl Abort, x: &Externs, wanted: &str) -> bool {
    let (cells, digests) = wanted.split_once(" | ").expect(rt, "digests");
    hold_cells(rt, x, cells) && are_told(rt, x, digests)
}

/// Whether steps do what is wanted.
fn run_so(rt: &impl Abort, alloc: Global, steps: &[Step], wanted: &str) -> bool {
    let (wanted, beside) = wanted
        .split_once(" | ")
        .unwrap_or((wanted, "10 20 30 40 | -"));
    let mut s = state(rt, alloc);
    let mut x = externs(rt, alloc, most_digests(steps).expect(rt, "memory"));
    let mut buffer = words(alloc, most_keys(steps)).expect(rt, "memory");
    let table = entry(rt, alloc);
    let flow = run_steps(&table, steps, &mut buffer, &mut s, &mut x);
    let found = ends(rt, &s, flow, wanted) && are_beside(rt, &x, beside);
    forget(s);
    forget(x);
    forget(table);
    found
}

/// Whether statements do what is wanted.
fn do_so(rt: &impl Abort, alloc: Global, text: &str, wanted: &str) -> bool {
    let trees = statements(rt, alloc, text);
    let actions = actions(rt, alloc);
    let tables = tables(rt, alloc);
    let registers = registers(rt, alloc);
    let callees = Callees {
        actions: &actions,
        tables: &tables,
        registers: &registers,
        headers: &[],
    };
    let mut places = places(rt, alloc);
    let found = stmts_steps(alloc, &mut places, &callees, &trees);
    forget(trees);
    forget(actions);
    forget(tables);
    forget(registers);
    forget(places);
    match found {
        Ok(steps) => {
            let found = run_so(rt, alloc, &steps, wanted);
            forget(steps);
            found
        }
        Err(Fault::Unknown) => wanted == "unknown",
        Err(Fault::NoMemory) => false,
    }
}

/// A line is as it says.
fn line_holds(rt: &impl Abort, alloc: Global, line: &str) {
    let (text, wanted) = line.split_once(" => ").expect(rt, "an end");
    holds(rt, do_so(rt, alloc, text, wanted), line);
}

#[test]
fn steps_do(rt: HostRuntime) {
    for line in STEPS.lines() {
        line_holds(&rt, rt.alloc(), line);
    }
}
