//! Properties: their trees, reading, rules and meaning.

use crate::never::never;
use arrayvec::ArrayVec;
use bit_values::Bits;
use indus_reader::{PropertyFault, read_property};
use indus_run::{hop_step, run_block};
use indus_tree::{Decl, DeclKind, Expr, Op, Property, Shape, Stmt, Ty};
use indus_types::{Rule, TypeFault, TypedProperty, check_property};
use indus_values::{ControlValue, HopResult, HopView, Report, SensorState, TeleState, eval_expr};
use lex_text::{LexFault, Literal, Name};
use std::alloc::{AllocError, Global};
use std::mem::forget;

/// Reading and rules.
pub fn typed(alloc: Global, text: &[u8], typed: &TypedProperty, variable: u32) {
    if never() {
        let read: Result<Property, PropertyFault> = read_property(alloc, text);
        if let Ok(property) = read {
            forget::<Result<TypedProperty, TypeFault>>(check_property(alloc, property));
        }
        let _: &Property = typed.property();
        let _: u64 = typed.tele_bits();
        let _: u32 = typed.weight();
        let _: u32 = typed.lookups(variable);
        forget::<Result<TypedProperty, AllocError>>(typed.copy(alloc));
    }
}

/// The direct evaluator.
pub fn evaluated(
    alloc: Global,
    p: &Property,
    e: &Expr,
    width: u8,
    view: &HopView,
    values: &[Bits],
    tele: &mut TeleState,
    sensors: &mut SensorState,
    items: &[(Name, Bits)],
    out: &mut HopResult,
) {
    if never() {
        forget::<Result<Bits, AllocError>>(eval_expr(
            alloc, p, e, width, view, values, tele, sensors, items,
        ));
        forget::<Result<(), AllocError>>(run_block(
            alloc, p, &p.init, view, values, tele, sensors, out,
        ));
        forget::<Result<HopResult, AllocError>>(hop_step(alloc, p, view, tele, sensors));
    }
}

/// States and what a hop shows.
pub fn states(tele: &TeleState, sensors: &SensorState, view: &HopView, hop: &HopResult) {
    let _: &Vec<Vec<Bits>> = &tele.items;
    let _: &Vec<Vec<Bits>> = &sensors.cells;
    let _: u16 = view.switch;
    let _: bool = view.first;
    let _: bool = view.last;
    let _: &Vec<Bits> = &view.entry_;
    let _: &Option<Vec<Bits>> = &view.exit_;
    let _: &Vec<ControlValue> = &view.control;
    let _: bool = hop.rejected;
    let _: &Vec<Report> = &hop.reports;
}

/// A report, and the contents of a control variable.
pub fn contents(alloc: Global, report: &Report, value: &ControlValue) {
    let _: u16 = report.number;
    let _: &ArrayVec<Bits, 8> = &report.values;
    match value {
        ControlValue::One(word) => {
            let _: &Bits = word;
        }
        ControlValue::Members(keys) => {
            let _: &Vec<Vec<Bits>> = keys;
        }
        ControlValue::Pairs(pairs) => {
            let _: &Vec<(Vec<Bits>, Bits)> = pairs;
        }
    }
    if never() {
        forget::<Result<ControlValue, AllocError>>(value.copy(alloc));
    }
}

/// The tree of a property, and of a declaration.
pub fn declarations(alloc: Global, p: &Property, d: &Decl) {
    let _: u32 = p.at;
    let _: u8 = p.edition;
    let _: &Vec<Decl> = &p.decls;
    let _: &Vec<Stmt> = &p.init;
    let _: &Vec<Stmt> = &p.tele;
    let _: &Vec<Stmt> = &p.check;
    let _: u32 = d.at;
    let _: DeclKind = d.kind;
    let _: &Name = &d.name;
    let _: &Shape = &d.shape;
    let _: &Option<Expr> = &d.start;
    let _: &Vec<Name> = &d.path;
    let _: bool = d.valid;
    if never() {
        forget::<Result<Property, AllocError>>(p.copy(alloc));
        forget::<Result<Decl, AllocError>>(d.copy(alloc));
    }
}

/// Kinds and shapes.
pub fn shapes(alloc: Global, kind: DeclKind, shape: &Shape, ty: Ty) {
    match kind {
        DeclKind::Tele | DeclKind::Sensor | DeclKind::Header | DeclKind::Control => {}
    }
    match shape {
        Shape::One(ty) => {
            let _: &Ty = ty;
        }
        Shape::List(ty, most) => {
            let _: &Ty = ty;
            let _: &u8 = most;
        }
        Shape::SetOf(keys) => {
            let _: &Vec<Ty> = keys;
        }
        Shape::DictOf(keys, value) => {
            let _: &Vec<Ty> = keys;
            let _: &Ty = value;
        }
    }
    match ty {
        Ty::Bit(width) => {
            let _: u8 = width;
        }
        Ty::Bool => {}
    }
    if never() {
        forget::<Result<Shape, AllocError>>(shape.copy(alloc));
    }
}

/// Expressions that no operator makes.
pub fn expressions(alloc: Global, e: &Expr) {
    match e {
        Expr::Num(at, literal) => {
            let _: &u32 = at;
            let _: &Literal = literal;
        }
        Expr::Flag(at, flag) => {
            let _: &u32 = at;
            let _: &bool = flag;
        }
        Expr::Read(at, name) => {
            let _: &u32 = at;
            let _: &Name = name;
        }
        Expr::Length(at, name) => {
            let _: &u32 = at;
            let _: &Name = name;
        }
        Expr::Index(at, name, keys) => {
            let _: &u32 = at;
            let _: &Name = name;
            let _: &Vec<Expr> = keys;
        }
        Expr::Member(at, keys, name) => {
            let _: &u32 = at;
            let _: &Name = name;
            let _: &Vec<Expr> = keys;
        }
        Expr::Not(..) | Expr::Invert(..) | Expr::Bin(..) | Expr::Cast(..) => {}
    }
    if never() {
        forget::<Result<Expr, AllocError>>(e.copy(alloc));
    }
}

/// Expressions that an operator makes.
pub fn operations(e: &Expr) {
    match e {
        Expr::Num(..) | Expr::Flag(..) | Expr::Read(..) | Expr::Length(..) => {}
        Expr::Index(..) | Expr::Member(..) => {}
        Expr::Not(at, a) => {
            let _: &u32 = at;
            let _: &Box<Expr> = a;
        }
        Expr::Invert(at, a) => {
            let _: &u32 = at;
            let _: &Box<Expr> = a;
        }
        Expr::Bin(at, op, a, b) => {
            let _: &u32 = at;
            let _: &Op = op;
            let _: &Box<Expr> = a;
            let _: &Box<Expr> = b;
        }
        Expr::Cast(at, width, a) => {
            let _: &u32 = at;
            let _: &u8 = width;
            let _: &Box<Expr> = a;
        }
    }
}

/// Statements that write a variable.
pub fn writes(alloc: Global, s: &Stmt) {
    match s {
        Stmt::Assign(at, name, e) => {
            let _: &u32 = at;
            let _: &Name = name;
            let _: &Expr = e;
        }
        Stmt::Push(at, name, e) => {
            let _: &u32 = at;
            let _: &Name = name;
            let _: &Expr = e;
        }
        Stmt::Cell(at, name, index, e) => {
            let _: &u32 = at;
            let _: &Name = name;
            let _: &Expr = index;
            let _: &Expr = e;
        }
        Stmt::If(..) | Stmt::For(..) | Stmt::Reject(..) | Stmt::Report(..) => {}
    }
    if never() {
        forget::<Result<Stmt, AllocError>>(s.copy(alloc));
    }
}

/// The other statements.
pub fn statements(s: &Stmt) {
    match s {
        Stmt::Assign(..) | Stmt::Push(..) | Stmt::Cell(..) => {}
        Stmt::If(at, test, yes, no) => {
            let _: &u32 = at;
            let _: &Expr = test;
            let _: &Vec<Stmt> = yes;
            let _: &Vec<Stmt> = no;
        }
        Stmt::For(at, items, lists, body) => {
            let _: &u32 = at;
            let _: &Vec<Name> = items;
            let _: &Vec<Name> = lists;
            let _: &Vec<Stmt> = body;
        }
        Stmt::Reject(at) => {
            let _: &u32 = at;
        }
        Stmt::Report(at, number, values) => {
            let _: &u32 = at;
            let _: &u16 = number;
            let _: &Vec<Expr> = values;
        }
    }
}

/// The operators in their order.
pub fn operators() -> [Op; 16] {
    [
        Op::Mul,
        Op::Add,
        Op::Sub,
        Op::Shl,
        Op::Shr,
        Op::BitAnd,
        Op::BitXor,
        Op::BitOr,
        Op::Less,
        Op::LessEq,
        Op::More,
        Op::MoreEq,
        Op::Equal,
        Op::Differ,
        Op::Both,
        Op::Either,
    ]
}

/// What a property is refused for.
pub fn faults(fault: &PropertyFault, wrong: TypeFault) {
    match fault {
        PropertyFault::NoMemory => {}
        PropertyFault::Lex(inner) => {
            let _: &LexFault = inner;
        }
        PropertyFault::Syntax { at } => {
            let _: &u32 = at;
        }
        PropertyFault::TooDeep { at } => {
            let _: &u32 = at;
        }
    }
    match wrong {
        TypeFault::NoMemory => {}
        TypeFault::Type_ { place, rule } => {
            let _: u32 = place;
            let _: Rule = rule;
        }
    }
}

/// The rules in their order.
pub fn rules() -> [Rule; 8] {
    [
        Rule::NameTwice,
        Rule::NoSuchName,
        Rule::WidthDiffers,
        Rule::KindDiffers,
        Rule::NotWritable,
        Rule::WrongBlock,
        Rule::LoopListChanged,
        Rule::BadSize,
    ]
}
