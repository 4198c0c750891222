//! Flat code of properties that are written as texts: it runs beside the property that it comes from.

use crate::texts::{put, put_count, put_lists, put_word, read, same, sides, typed};
use bit_values::Bits;
use indus_run::{has_short_reports, hop_step, is_shaped};
use indus_tree::{Decl, DeclKind, Expr, Property, Shape, Stmt, Ty};
use indus_types::{TypedProperty, check_property};
use indus_values::{HopResult, HopView, Report, SensorState, TeleState};
use lex_text::Name;
use lower_lists::{LowerFault, flatten};
use std::alloc::Global;
use std::mem::{forget, replace};
use std::process::Abort;

// ---- numbered scalars

/// Declares a scalar by a name.
fn put_scalar(rt: &impl Abort, alloc: Global, out: &mut Vec<Decl>, name: &str, ty: Ty) {
    let decl = Decl {
        at: 0,
        kind: DeclKind::Tele,
        name: Name::new(alloc, name).expect(rt, "memory"),
        shape: Shape::One(ty),
        start: None,
        path: Vec::new(alloc),
        valid: false,
    };
    out.push(decl).expect(rt, "memory");
}

/// Declares the scalar `number_place`.
fn put_numbered(
    rt: &impl Abort,
    alloc: Global,
    out: &mut Vec<Decl>,
    number: usize,
    place: u8,
    ty: Ty,
) {
    let name = format!(in alloc; "{number}_{place}").expect(rt, "memory");
    put_scalar(rt, alloc, out, &name, ty);
}

/// Declares the scalar `number_c`, in which a list counts its items.
fn put_counter(rt: &impl Abort, alloc: Global, out: &mut Vec<Decl>, number: usize) {
    let name = format!(in alloc; "{number}_c").expect(rt, "memory");
    put_scalar(rt, alloc, out, &name, Ty::Bit(8));
}

/// The numbered scalars of a variable.
fn scalars(rt: &impl Abort, alloc: Global, number: usize, shape: &Shape, out: &mut Vec<Decl>) {
    match shape {
        Shape::One(ty) => put_numbered(rt, alloc, out, number, 0, *ty),
        Shape::List(ty, size) => {
            put_counter(rt, alloc, out, number);
            for place in 0..*size {
                put_numbered(rt, alloc, out, number, place, *ty);
            }
        }
        Shape::SetOf(_) | Shape::DictOf(_, _) => {}
    }
}

/// What stands for a declaration.
fn put_decl(rt: &impl Abort, alloc: Global, number: usize, d: &Decl, out: &mut Vec<Decl>) {
    match d.kind {
        DeclKind::Tele => scalars(rt, alloc, number, &d.shape, out),
        _ => {
            let copy = d.copy(alloc).expect(rt, "memory");
            out.push(copy).expect(rt, "memory");
        }
    }
}

fn numbered(rt: &impl Abort, alloc: Global, decls: &[Decl]) -> Vec<Decl> {
    let mut out = Vec::new(alloc);
    for (number, d) in decls.iter().enumerate() {
        put_decl(rt, alloc, number, d, &mut out);
    }
    out
}

/// The flat code of a property, with its numbered scalars.
fn flat(rt: &impl Abort, alloc: Global, p: &TypedProperty) -> Property {
    let decls = numbered(rt, alloc, &p.property().decls);
    let mut f = flatten(alloc, p).expect(rt, "flat code");
    Property {
        at: 0,
        edition: p.property().edition,
        decls,
        init: replace(&mut f.init, Vec::new(alloc)),
        tele: replace(&mut f.tele, Vec::new(alloc)),
        check: replace(&mut f.check, Vec::new(alloc)),
    }
}

// ---- runs

/// A header variable reads half the switch's number, rounded up.
fn view(rt: &impl Abort, alloc: Global, switch: u16, last: bool) -> HopView {
    let mut values = Vec::new(alloc);
    let half = Bits::new(9, switch.div_ceil(2).min(511) as u128);
    values.push(half).expect(rt, "memory");
    HopView {
        switch,
        first: switch == 0,
        last,
        entry_: Vec::from_slice(alloc, &values).expect(rt, "memory"),
        exit_: Some(values),
        control: Vec::new(alloc),
    }
}

/// ` #0(8w1 )`
fn put_report(rt: &impl Abort, alloc: Global, out: &mut String, report: &Report) {
    put_count(rt, alloc, out, " #", u128::from(report.number), "(");
    for word in report.values.as_slice() {
        put_word(rt, alloc, out, *word);
        put(rt, out, " ");
    }
    put(rt, out, ")");
}

/// What the packet's variables hold, what the sensors hold, and what came of the hop.
fn shown(
    rt: &impl Abort,
    alloc: Global,
    tele: &TeleState,
    sensors: &SensorState,
    hop: &HopResult,
) -> String {
    let mut line = String::new(alloc);
    put_lists(rt, alloc, &mut line, &tele.items);
    put(rt, &mut line, "/ ");
    put_lists(rt, alloc, &mut line, &sensors.cells);
    put(rt, &mut line, "/");
    if hop.rejected {
        put(rt, &mut line, " reject");
    }
    for report in &hop.reports {
        put_report(rt, alloc, &mut line, report);
    }
    line
}

/// A hop of a property whose reports are short, in states that it has shaped.
fn step(
    rt: &impl Abort,
    alloc: Global,
    p: &Property,
    hop: &HopView,
    tele: &mut TeleState,
    sensors: &mut SensorState,
) -> String {
    assert!(rt; has_short_reports(p) && is_shaped(p, tele, sensors));
    let result = hop_step(alloc, p, hop, tele, sensors).expect(rt, "memory");
    shown(rt, alloc, tele, sensors, &result)
}

/// What is left behind the last of so many hops.
fn left(rt: &impl Abort, alloc: Global, p: &Property, hops: u16) -> String {
    let mut tele = TeleState::start(alloc, p).expect(rt, "memory");
    let mut sensors = SensorState::start(alloc, p).expect(rt, "memory");
    let mut left = String::new(alloc);
    for switch in 0..hops {
        let hop = view(rt, alloc, switch, switch + 1 == hops);
        left = step(rt, alloc, p, &hop, &mut tele, &mut sensors);
    }
    left
}

/// Two texts with ` / ` between.
fn joined(rt: &impl Abort, alloc: Global, first: &str, second: &str) -> String {
    let mut all = String::new(alloc);
    put(rt, &mut all, first);
    put(rt, &mut all, " / ");
    put(rt, &mut all, second);
    all
}

/// A property leaves this behind so many hops.
fn leaves(rt: &impl Abort, alloc: Global, p: &Property, hops: u16, wanted: &str, row: &str) {
    same(rt, &left(rt, alloc, p, hops), wanted, row);
}

/// A row is a property, what it leaves, and what the numbered scalars hold then; the rest is the same.
fn row_agrees(rt: &impl Abort, alloc: Global, hops: u16, row: &str) {
    let (text, rest) = sides(rt, row);
    let (lists, rest) = sides(rt, rest);
    let (scalars, rest) = sides(rt, rest);
    let p = typed(rt, alloc, text);
    let plain = joined(rt, alloc, lists, rest);
    leaves(rt, alloc, p.property(), hops, &plain, row);
    let made = flat(rt, alloc, &p);
    let of_scalars = joined(rt, alloc, scalars, rest);
    leaves(rt, alloc, &made, hops, &of_scalars, row);
    forget(made);
    forget(p);
}

/// Each row is as it says.
fn agree(rt: &impl Abort, alloc: Global, hops: u16, table: &str) {
    for row in table.lines() {
        row_agrees(rt, alloc, hops, row);
    }
}

/// The third push changes nothing, and leaves the oldest item.
#[test]
fn three_pushes_onto_a_list_of_two(rt: HostRuntime) {
    agree(
        &rt,
        rt.alloc(),
        3,
        "\
tele bit<9>[2] l; {} {l.push((bit<9>) switch_id);} {report(length(l), 2 in l, 1 in l);} => [9w0 9w1] => [8w2] [9w0] [9w1] => / #0(8w2 1w0 1w1 )",
    );
}

/// Two turns over three items and two, the first list twice in one loop, nested loops over one list
/// (0 * 2 + 4, 4 * 2 + 6, 14 * 2 + 6, 34 * 2 + 9), and pushes in a loop over another list.
const LOOPS: &str = "\
tele bit<8>[3] a; tele bit<8>[2] b; tele bit<8> n; tele bit<8> m; {a.push(1); a.push(2); a.push(3); b.push(10); b.push(20);} {for (x, y in a, b) {m = m + x * y; for (z in a) {n = n + z;}}} {} => [8w1 8w2 8w3] [8w10 8w20] [8w12] [8w50] => [8w3] [8w1] [8w2] [8w3] [8w2] [8w10] [8w20] [8w12] [8w50] => /
tele bit<8>[3] a; tele bit<8> n; {a.push(2); a.push(3);} {for (x, y in a, a) {n = n + x * y;}} {} => [8w2 8w3] [8w13] => [8w2] [8w2] [8w3] [8w0] [8w13] => /
tele bit<8>[3] a; tele bit<8> n; {a.push(2); a.push(3);} {for (x in a) {for (y in a) {n = n * 2 + x * y;}}} {} => [8w2 8w3] [8w77] => [8w2] [8w2] [8w3] [8w0] [8w77] => /
tele bit<8>[3] a; tele bit<8>[2] b; {a.push(5); a.push(6); a.push(7);} {for (x in a) {b.push(x + 1);}} {} => [8w5 8w6 8w7] [8w6 8w7] => [8w3] [8w5] [8w6] [8w7] [8w2] [8w6] [8w7] => /
tele bit<8>[3] a; tele bit<8> n; {} {for (x in a) {n = 1;}} {} => [] [8w0] => [8w0] [8w0] [8w0] [8w0] [8w0] => /
sensor bit<8>[2] s = 4; tele bit<8>[2] a; tele bool[2] t; {a.push(1); a.push(0);} {for (x in a) {s[x] = s[x] + x + 1; t.push(x == 1);}} {if (false in t && true in t) {reject;}} => [8w1 8w0] [1w1 1w0] => [8w2] [8w1] [8w0] [8w2] [1w1] [1w0] => [8w5 8w6] / reject";

#[test]
fn loops(rt: HostRuntime) {
    agree(&rt, rt.alloc(), 1, LOOPS);
}

/// A list is filled from 0 on. 0 is not in an empty list, whose places hold 0.
#[test]
fn members_of_lists(rt: HostRuntime) {
    agree(
        &rt,
        rt.alloc(),
        5,
        "\
header bit<9> x = standard_metadata.ingress_port; tele bit<9>[3] l; tele bit<8> n; {} {if (x in l) {n = n + 1;} l.push(x);} {} => [9w0 9w1 9w1] [8w1] => [8w3] [9w0] [9w1] [9w1] [8w1] => /
tele bit<8>[3] l; tele bit<8> n; {} {if (7 + 1 in l) {n = n + 1;} if (length(l) < 2) {l.push(length(l) + 8);}} {} => [8w8 8w9] [8w4] => [8w2] [8w8] [8w9] [8w0] [8w4] => /",
    );
}

// ---- names

/// Puts a statement that a text cannot have: the name `03_0` takes the length of the list.
fn put_code(rt: &impl Abort, alloc: Global, code: &mut Vec<Stmt>) {
    let list = Name::new(alloc, "l").expect(rt, "memory");
    let five = Expr::Num(0, lex_text::Literal { width: 8, value: 5 });
    code.push(Stmt::Push(0, list, five)).expect(rt, "memory");
    let list = Name::new(alloc, "l").expect(rt, "memory");
    let odd = Name::new(alloc, "03_0").expect(rt, "memory");
    code.push(Stmt::Assign(0, odd, Expr::Length(0, list)))
        .expect(rt, "memory");
}

/// A property whose first sensor is called `03_0`.
fn odd_property(rt: &impl Abort, alloc: Global) -> TypedProperty {
    let text = "sensor bit<8> a; sensor bit<8> b; sensor bit<8> c; tele bit<8>[2] l; {} {} {}";
    let mut p = read(rt, alloc, text);
    let first = p.decls.first_mut().expect(rt, "a sensor");
    first.name = Name::new(alloc, "03_0").expect(rt, "memory");
    put_code(rt, alloc, &mut p.tele);
    check_property(alloc, p).expect(rt, "a well-typed property")
}

/// A name that only a tree can have, beside the item 0 of the variable 3.
#[test]
fn a_name_with_a_digit_in_front(rt: HostRuntime) {
    let p = odd_property(&rt, rt.alloc());
    let made = flat(&rt, rt.alloc(), &p);
    let wanted = "[8w2] [8w5] [8w5] / [8w2] [8w0] [8w0] /";
    leaves(&rt, rt.alloc(), &made, 2, wanted, "an odd name");
    forget(made);
    forget(p);
}

// ---- weights

/// The weight for which a property has no flat code, or 0.
fn weight(rt: &impl Abort, alloc: Global, text: &str) -> u32 {
    let p = typed(rt, alloc, text);
    let found = match flatten(alloc, &p) {
        Ok(made) => {
            forget(made);
            0
        }
        Err(LowerFault::TooLarge { weight }) => weight,
        Err(LowerFault::NoMemory) => panic!(rt; "memory is wanting"),
    };
    forget(p);
    found
}

/// A loop of 127 turns over 64 statements, and a checker.
fn wide(rt: &impl Abort, alloc: Global, check: &str) -> String {
    let mut text = String::new(alloc);
    put(
        rt,
        &mut text,
        "tele bit<8>[127] a; tele bit<8> n; {} {for (x in a) {",
    );
    for _ in 0..64 {
        put(rt, &mut text, "n = n;");
    }
    put(rt, &mut text, "}} {");
    put(rt, &mut text, check);
    put(rt, &mut text, "}");
    text
}

/// 1 + 255 * (1 + 1 + 255 * (1 + 4)). Then 1 + 127 * (1 + 64 * 2), which is 16,384, and 1 more.
#[test]
fn too_large(rt: HostRuntime) {
    let alloc = rt.alloc();
    let nested =
        "tele bit<1>[255] a; tele bit<8> n; {} {for (x in a) {for (y in a) {n = n + 1;}}} {}";
    assert!(rt; weight(&rt, alloc, nested) == 325636);
    assert!(rt; weight(&rt, alloc, &wide(&rt, alloc, "")) == 0);
    assert!(rt; weight(&rt, alloc, &wide(&rt, alloc, "reject;")) == 16385);
}
