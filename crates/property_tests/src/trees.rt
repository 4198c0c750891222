//! Texts with their trees.

use indus_reader::read_property;
use std::alloc::Global;
use std::mem::forget;
use std::process::Abort;

/// What is shorter in the trees of the tables, and how: names and numbers alone, and the parts of a property behind its edition,
/// with ` / ` between its blocks.
const SHORTER: &str = "\
Name { text: \"|
\" }|
Literal { width: |
, value: |w
 })|)
Property { at: 0, edition: |
, decls: | 
, init: | / 
, tele: | / 
, check: | / 
] }|]
Decl { at: |
, kind: | 
, name: | 
, shape: | 
, start: None|
, path: []|
, valid: false }|";

/// What the text spells.
fn shown(rt: &impl Abort, alloc: Global, text: &str) -> String {
    assert!(rt; text.len() <= 65536);
    let tree = read_property(alloc, text.as_bytes()).expect(rt, "a property");
    let mut out = format!(in alloc; "{tree:?}").expect(rt, "memory");
    forget(tree);
    for row in SHORTER.lines() {
        let (long, short) = sides(rt, row, "|");
        out = out.replace(alloc, long, short).expect(rt, "memory");
    }
    out
}

/// The two sides of a mark.
fn sides<'a>(rt: &impl Abort, row: &'a str, mark: &str) -> (&'a str, &'a str) {
    row.split_once(mark).expect(rt, "two sides")
}

/// The text has this tree.
fn same(rt: &impl Abort, alloc: Global, text: &str, wanted: &str) {
    let found = shown(rt, alloc, text);
    assert!(rt; found.as_str() == wanted, "{text}: {found}");
}

/// Declarations, statements, and whole properties as an operator writes them, each with its tree.
const PROPERTIES: &str = "\
{}{}{} => 1 [] / [] / [] / []
tele bit<8> n; {} {} {} => 1 [0 Tele n One(Bit(8))] / [] / [] / []
tele bool b; {} {} {} => 1 [0 Tele b One(Bool)] / [] / [] / []
tele bit<255>[0] n; {} {} {} => 1 [0 Tele n List(Bit(255), 0)] / [] / [] / []
tele bool[0x10] n; {} {} {} => 1 [0 Tele n List(Bool, 16)] / [] / [] / []
sensor bit<8> s; {} {} {} => 1 [0 Sensor s One(Bit(8))] / [] / [] / []
sensor bit<8>[4] s = 8w5; {} {} {} => 1 [0 Sensor s List(Bit(8), 4), start: Some(Num(10, 8w5))] / [] / [] / []
sensor bool s = true; {} {} {} => 1 [0 Sensor s One(Bool), start: Some(Flag(4, true))] / [] / [] / []
sensor bool s = false; {} {} {} => 1 [0 Sensor s One(Bool), start: Some(Flag(4, false))] / [] / [] / []
header bit<9> p = meta.port; {} {} {} => 1 [0 Header p One(Bit(9)), path: [meta, port]] / [] / [] / []
header bit<9> p = hdr.h.f; {} {} {} => 1 [0 Header p One(Bit(9)), path: [hdr, h, f]] / [] / [] / []
header bool v = hdr.h.isValid(); {} {} {} => 1 [0 Header v One(Bool), path: [hdr, h, isValid], valid: true }] / [] / [] / []
control bit<8> c; {} {} {} => 1 [0 Control c One(Bit(8))] / [] / [] / []
control bool c; {} {} {} => 1 [0 Control c One(Bool)] / [] / [] / []
control set<bool> c; {} {} {} => 1 [0 Control c SetOf([Bool])] / [] / [] / []
control set<bit<8>> c; {} {} {} => 1 [0 Control c SetOf([Bit(8)])] / [] / [] / []
control set<bit<8> > c; {} {} {} => 1 [0 Control c SetOf([Bit(8)])] / [] / [] / []
control set<(bit<8>, bool)> c; {} {} {} => 1 [0 Control c SetOf([Bit(8), Bool])] / [] / [] / []
control dict<bool, bool> c; {} {} {} => 1 [0 Control c DictOf([Bool], Bool)] / [] / [] / []
control dict<bit<8>, bit<9>> c; {} {} {} => 1 [0 Control c DictOf([Bit(8)], Bit(9))] / [] / [] / []
control dict<(bool, bit<8>, bit<4>), bit<9> > c; {} {} {} => 1 [0 Control c DictOf([Bool, Bit(8), Bit(4)], Bit(9))] / [] / [] / []
tele bool a; sensor bool b; {} {} {} => 1 [0 Tele a One(Bool), 4 Sensor b One(Bool)] / [] / [] / []
{n = 1;} {} {} => 1 [] / [Assign(1, n, Num(3, 0w1))] / [] / []
{} {a[1] = 2;} {} => 1 [] / [] / [Cell(3, a, Num(5, 0w1), Num(8, 0w2))] / []
{l.push(1);} {} {} => 1 [] / [Push(1, l, Num(5, 0w1))] / [] / []
{} {} {reject;} => 1 [] / [] / [] / [Reject(5)]
{} {} {report();} => 1 [] / [] / [] / [Report(5, 0, [])]
{} {} {report(a, 1);} => 1 [] / [] / [] / [Report(5, 0, [Read(7, a), Num(9, 0w1)])]
{if (a) {}} {} {} => 1 [] / [If(1, Read(3, a), [], [])] / [] / []
{if (a) {} else {n = 1;}} {} {} => 1 [] / [If(1, Read(3, a), [], [Assign(9, n, Num(11, 0w1))])] / [] / []
{if (a) {} else if (b) {reject;} else {}} {} {} => 1 [] / [If(1, Read(3, a), [], [If(8, Read(10, b), [Reject(13)], [])])] / [] / []
{if (a) {if (b) {}} else {}} {} {} => 1 [] / [If(1, Read(3, a), [If(6, Read(8, b), [], [])], [])] / [] / []
{for (x in l) {}} {} {} => 1 [] / [For(1, [x], [l], [])] / [] / []
{for (x, y in l, m) {n = x;}} {} {} => 1 [] / [For(1, [x, y], [l, m], [Assign(12, n, Read(14, x))])] / [] / []
{report(); if (a) {report();} else {report();}} {for (x in l) {report();}} {report();} => 1 [] / [Report(1, 0, []), If(5, Read(7, a), [Report(10, 1, [])], [Report(17, 2, [])])] / [For(24, [x], [l], [Report(31, 3, [])])] / [Report(38, 4, [])]
{push = 1; push.push(push);} {} {} => 1 [] / [Assign(1, push, Num(3, 0w1)), Push(5, push, Read(9, push))] / [] / []
tele bit<8> n; {} {n = n + 1;} {if (n == 3) {reject;}} => 1 [0 Tele n One(Bit(8))] / [] / [Assign(10, n, Bin(12, Add, Read(12, n), Num(14, 0w1)))] / [If(18, Bin(20, Equal, Read(20, n), Num(22, 0w3)), [Reject(25)], [])]
tele bit<8> tenant; tele bit<9>[4] ports; tele bool seen; {} {} {} => 1 [0 Tele tenant One(Bit(8)), 7 Tele ports List(Bit(9), 4), 17 Tele seen One(Bool)] / [] / [] / []
tele bit<9>[2] l; {} {l.push((bit<9>) switch_id);} {report(length(l), 2 in l, 1 in l);} => 1 [0 Tele l List(Bit(9), 2)] / [] / [Push(13, l, Cast(17, 9, Read(23, switch_id)))] / [Report(28, 0, [Length(30, l), Member(35, [Num(35, 0w2)], l), Member(39, [Num(39, 0w1)], l)])]
sensor bit<8> s = 250; {} {s = s + 3;} {} => 1 [0 Sensor s One(Bit(8)), start: Some(Num(7, 0w250))] / [] / [Assign(12, s, Bin(14, Add, Read(14, s), Num(16, 0w3)))] / []
sensor bit<8> seen; tele bit<8> mine; {} {seen = seen + 1; mine = seen;} {report(mine);} => 1 [0 Sensor seen One(Bit(8)), 7 Tele mine One(Bit(8))] / [] / [Assign(17, seen, Bin(19, Add, Read(19, seen), Num(21, 0w1))), Assign(23, mine, Read(25, seen))] / [Report(29, 0, [Read(31, mine)])]
{} {} {report(); reject;} => 1 [] / [] / [] / [Report(5, 0, []), Reject(9)]
sensor bit<8> c; {} {c = c + 1;} {report();} => 1 [0 Sensor c One(Bit(8))] / [] / [Assign(10, c, Bin(12, Add, Read(12, c), Num(14, 0w1)))] / [Report(18, 0, [])]
control dict<bit<9>, bit<8>> tenants; header bit<9> i = standard_metadata.ingress_port; header bit<9> o = standard_metadata.egress_port; {} {} {report(tenants[o], tenants[i]);} => 1 [0 Control tenants DictOf([Bit(9)], Bit(8)), 14 Header i One(Bit(9)), path: [standard_metadata, ingress_port], 25 Header o One(Bit(9)), path: [standard_metadata, egress_port]] / [] / [] / [Report(41, 0, [Index(43, tenants, [Read(45, o)]), Index(48, tenants, [Read(50, i)])])]
tele bit<1>[255] a; tele bit<8> n; {} {for (x in a) {for (y in a) {n = n + 1;}}} {} => 1 [0 Tele a List(Bit(1), 255), 10 Tele n One(Bit(8))] / [] / [For(20, [x], [a], [For(27, [y], [a], [Assign(34, n, Bin(36, Add, Read(36, n), Num(38, 0w1)))])])] / []
tele bit<8> n; {m = 1;} {} {} => 1 [0 Tele n One(Bit(8))] / [Assign(8, m, Num(10, 0w1))] / [] / []
edition 0x2; {} {} {} => 2 [] / [] / [] / []
edition 2; sensor bit<8> s; {report(1w1);} {s = s + 1; report(s);} {report(s);} => 2 [3 Sensor s One(Bit(8))] / [Report(11, 0, [Num(13, 1w1)])] / [Assign(18, s, Bin(20, Add, Read(20, s), Num(22, 0w1))), Report(24, 1, [Read(26, s)])] / [Report(31, 2, [Read(33, s)])]
header bit<16> d = hdr.tcp.dport; {} {} {} => 1 [0 Header d One(Bit(16)), path: [hdr, tcp, dport]] / [] / [] / []";

/// Over several lines and with a comment.
const FILE: &str = "\
tele bit<8> tenant; tele bit<16>[4] path; sensor bit<32> seen;
control dict<bit<9>, bit<8>> tenants; // who owns a port
header bit<9> in_port = standard_metadata.ingress_port;
header bit<9> out_port = standard_metadata.egress_port;
{ tenant = tenants[in_port]; }
{ seen = seen + 1; path.push(switch_id); }
{ if (tenants[out_port] != tenant) { reject; report(tenant, tenants[out_port]); } }
";

const FILE_TREE: &str =
    "1 [0 Tele tenant One(Bit(8)), 7 Tele path List(Bit(16), 4), 17 Sensor seen One(Bit(32)), 24 Control tenants DictOf([Bit(9)], Bit(8)), 38 Header in_port One(Bit(9)), path: [standard_metadata, ingress_port], 49 Header out_port One(Bit(9)), path: [standard_metadata, egress_port]] / [Assign(61, tenant, Index(63, tenants, [Read(65, in_port)]))] / [Assign(70, seen, Bin(72, Add, Read(72, seen), Num(74, 0w1))), Push(76, path, Read(80, switch_id))] / [If(85, Bin(87, Differ, Index(87, tenants, [Read(89, out_port)]), Read(92, tenant)), [Reject(95), Report(97, 0, [Read(99, tenant), Index(101, tenants, [Read(103, out_port)])])], [])]";

#[test]
fn properties(rt: HostRuntime) {
    for row in PROPERTIES.lines() {
        let (text, wanted) = sides(&rt, row, " => ");
        same(&rt, rt.alloc(), text, wanted);
    }
    same(&rt, rt.alloc(), FILE, FILE_TREE);
}

/// Texts behind each other.
fn joined(rt: &impl Abort, alloc: Global, parts: &[&str]) -> String {
    let mut out = String::new(alloc);
    for part in parts {
        out.push_str(part).expect(rt, "memory");
    }
    out
}

/// The expression, as the value that init assigns, has this tree.
fn same_value(rt: &impl Abort, alloc: Global, text: &str, tree: &str) {
    let text = joined(rt, alloc, &["{n = ", text, ";} {} {}"]);
    let wanted = joined(rt, alloc, &["1 [] / [Assign(1, n, ", tree, ")] / [] / []"]);
    same(rt, alloc, &text, &wanted);
}

/// Expressions and their trees, a row a line.
const EXPRESSIONS: &str = "\
5 => Num(3, 0w5)
8w0xff => Num(3, 8w255)
true => Flag(3, true)
false => Flag(3, false)
x => Read(3, x)
x[1] => Index(3, x, [Num(5, 0w1)])
x[1, y, z[2]] => Index(3, x, [Num(5, 0w1), Read(7, y), Index(9, z, [Num(11, 0w2)])])
length(x) => Length(3, x)
!a => Not(3, Read(4, a))
~a => Invert(3, Read(4, a))
!~!a => Not(3, Invert(4, Not(5, Read(6, a))))
(bit<8>) a => Cast(3, 8, Read(9, a))
(bit<8>) !a + b => Bin(3, Add, Cast(3, 8, Not(9, Read(10, a))), Read(12, b))
(a) => Read(4, a)
((a)) => Read(5, a)
(a + b) * c => Bin(3, Mul, Bin(4, Add, Read(4, a), Read(6, b)), Read(9, c))
a + (b + c) => Bin(3, Add, Read(3, a), Bin(6, Add, Read(6, b), Read(8, c)))
a in s => Member(3, [Read(3, a)], s)
(a) in s => Member(3, [Read(4, a)], s)
(a, b) in s => Member(3, [Read(4, a), Read(6, b)], s)
(a, b, c + 1) in s => Member(3, [Read(4, a), Read(6, b), Bin(8, Add, Read(8, c), Num(10, 0w1))], s)
(a, b) in s in t => Member(3, [Member(3, [Read(4, a), Read(6, b)], s)], t)
(a, b) in s < c => Bin(3, Less, Member(3, [Read(4, a), Read(6, b)], s), Read(11, c))
x == (a, b) in s => Bin(3, Equal, Read(3, x), Member(5, [Read(6, a), Read(8, b)], s))
!((a, b) in s) => Not(3, Member(5, [Read(6, a), Read(8, b)], s))
((bit<8>) a, b) in s => Member(3, [Cast(4, 8, Read(10, a)), Read(12, b)], s)
(bit<8>) a in s => Member(3, [Cast(3, 8, Read(9, a))], s)
(a, b) in s && c => Bin(3, Both, Member(3, [Read(4, a), Read(6, b)], s), Read(11, c))
a && (b, c) in s => Bin(3, Both, Read(3, a), Member(5, [Read(6, b), Read(8, c)], s))
a + 1 in s => Member(3, [Bin(3, Add, Read(3, a), Num(5, 0w1))], s)
a < b in s => Member(3, [Bin(3, Less, Read(3, a), Read(5, b))], s)
(a) + 1 in s => Member(3, [Bin(3, Add, Read(4, a), Num(7, 0w1))], s)
(a) * b + c << d & e ^ f | g < h => Bin(3, Less, Bin(3, BitOr, Bin(3, BitXor, Bin(3, BitAnd, Bin(3, Shl, Bin(3, Add, Bin(3, Mul, Read(4, a), Read(7, b)), Read(9, c)), Read(11, d)), Read(13, e)), Read(15, f)), Read(17, g)), Read(19, h))
a || b && c == d < e | f ^ g & h << i + j * k => Bin(3, Either, Read(3, a), Bin(5, Both, Read(5, b), Bin(7, Equal, Read(7, c), Bin(9, Less, Read(9, d), Bin(11, BitOr, Read(11, e), Bin(13, BitXor, Read(13, f), Bin(15, BitAnd, Read(15, g), Bin(17, Shl, Read(17, h), Bin(19, Add, Read(19, i), Bin(21, Mul, Read(21, j), Read(23, k)))))))))))
x[(a, b) in s] => Index(3, x, [Member(5, [Read(6, a), Read(8, b)], s)])
_ => Read(3, _)";

#[test]
fn expressions(rt: HostRuntime) {
    for row in EXPRESSIONS.lines() {
        let (text, tree) = sides(&rt, row, " => ");
        same_value(&rt, rt.alloc(), text, tree);
    }
}

/// The binary operators but `in`, those of a level on a line with what trees call them, the tightest first. `in` is of the line
/// at 6.
const LEVELS: &str = "\
* Mul
+ Add,- Sub
<< Shl,>> Shr
& BitAnd
^ BitXor
| BitOr
< Less,<= LessEq,> More,>= MoreEq
== Equal,!= Differ
&& Both
|| Either";

/// Two operators behind each other, the first on a level at or before that of the second, or else behind it.
fn pair(rt: &impl Abort, alloc: Global, first: &str, second: &str, is_left: bool) {
    let (a, first) = sides(rt, first, " ");
    let (b, second) = sides(rt, second, " ");
    let text = joined(rt, alloc, &["a ", a, " b ", b, " c"]);
    let tree = if is_left {
        let left = [", Bin(3, ", first, ", Read(3, a), Read(5, b)), Read(7, c))"];
        joined(rt, alloc, &["Bin(3, ", second, left[0], left[1], left[2]])
    } else {
        let right = [
            ", Read(3, a), Bin(5, ",
            second,
            ", Read(5, b), Read(7, c)))",
        ];
        joined(rt, alloc, &["Bin(3, ", first, right[0], right[1], right[2]])
    };
    same_value(rt, alloc, &text, &tree);
}

/// Each operator behind the first one, which is on this level.
fn pairs_with(rt: &impl Abort, alloc: Global, first: &str, level: usize) {
    for (other, signs) in LEVELS.lines().enumerate() {
        for second in signs.split(',') {
            pair(rt, alloc, first, second, level <= other);
        }
    }
}

/// `in` before and behind an operator on this level.
fn in_beside(rt: &impl Abort, alloc: Global, sign: &str, level: usize) {
    let (sign, name) = sides(rt, sign, " ");
    let text = joined(rt, alloc, &["a ", sign, " b in s"]);
    let tree = if level <= 6 {
        joined(
            rt,
            alloc,
            &["Member(3, [Bin(3, ", name, ", Read(3, a), Read(5, b))], s)"],
        )
    } else {
        joined(
            rt,
            alloc,
            &["Bin(3, ", name, ", Read(3, a), Member(5, [Read(5, b)], s))"],
        )
    };
    same_value(rt, alloc, &text, &tree);
    // Behind `in` a tighter operator finds no left side.
    if level >= 6 {
        let text = joined(rt, alloc, &["a in s ", sign, " b"]);
        let tree = joined(
            rt,
            alloc,
            &["Bin(3, ", name, ", Member(3, [Read(3, a)], s), Read(7, b))"],
        );
        same_value(rt, alloc, &text, &tree);
    }
}

#[test]
fn levels_of_operators(rt: HostRuntime) {
    for (level, signs) in LEVELS.lines().enumerate() {
        for sign in signs.split(',') {
            pairs_with(&rt, rt.alloc(), sign, level);
            in_beside(&rt, rt.alloc(), sign, level);
        }
    }
}
