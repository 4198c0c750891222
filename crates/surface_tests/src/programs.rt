//! Programs: their trees, reading, printing and rules.

use crate::never::never;
use lex_text::{LexFault, Literal, Name, Token};
use p4_decls::{ProgramFault, read_program};
use p4_printer::print_program;
use p4_reader::{ReadStop, read_expr, read_stmts};
use p4_tree::{
    Action, Arg, Control, Expr, Keyset, Local, Op, PTy, Param, Parser, ParserState, Program,
    Register, Stmt, Table, Top, Transition, Way,
};
use p4_types::{ProgramRule, ProgramTypeFault, TypedProgram, check_program};
use std::alloc::{AllocError, Global};
use std::mem::forget;

/// Reading and printing.
pub fn read(alloc: Global, text: &[u8], list: &[Token], start: usize, p: &Program) {
    if never() {
        forget::<Result<(Vec<Stmt>, usize), ReadStop>>(read_stmts(alloc, text, list, start));
        forget::<Result<(Expr, usize), ReadStop>>(read_expr(alloc, text, list, start));
        forget::<Result<Program, ProgramFault>>(read_program(alloc, text));
        forget::<Result<String, AllocError>>(print_program(alloc, p));
    }
}

/// Rules, and what a well-typed program answers.
pub fn typed(alloc: Global, p: Program, typed: &TypedProgram, name: &str) {
    if never() {
        forget::<Result<TypedProgram, ProgramTypeFault>>(check_program(alloc, p));
        let _: &Program = typed.program();
        let _: Option<u32> = typed.table_number(name);
        let _: Option<u32> = typed.register_number(name);
        let _: Option<u32> = typed.action_number(name);
        let _: u32 = typed.header_bytes();
        let _: u32 = typed.digest_bound();
        let _: u64 = typed.cells();
        forget::<Result<TypedProgram, AllocError>>(typed.copy(alloc));
    }
}

/// The tree of a program.
pub fn program(alloc: Global, p: &Program, top: &Top) {
    let _: u32 = p.at;
    let _: &Vec<Top> = &p.tops;
    let _: &Vec<Name> = &p.main;
    if never() {
        forget::<Result<Program, AllocError>>(p.copy(alloc));
        forget::<Result<Top, AllocError>>(top.copy(alloc));
    }
}

/// The declarations of a program.
pub fn tops(top: &Top) {
    match top {
        Top::Const(at, ty, name, e) => {
            let _: &u32 = at;
            let _: &PTy = ty;
            let _: &Name = name;
            let _: &Expr = e;
        }
        Top::Typedef(at, ty, name) => {
            let _: &u32 = at;
            let _: &PTy = ty;
            let _: &Name = name;
        }
        Top::Header(at, name, fields) => {
            let _: &u32 = at;
            let _: &Name = name;
            let _: &Vec<(PTy, Name)> = fields;
        }
        Top::Struct(at, name, fields) => {
            let _: &u32 = at;
            let _: &Name = name;
            let _: &Vec<(PTy, Name)> = fields;
        }
        Top::Reg(at, register) => {
            let _: &u32 = at;
            let _: &Register = register;
        }
        Top::Pars(at, parser) => {
            let _: &u32 = at;
            let _: &Parser = parser;
        }
        Top::Ctl(at, control) => {
            let _: &u32 = at;
            let _: &Control = control;
        }
    }
}

/// Controls and their declarations.
pub fn controls(alloc: Global, c: &Control, local: &Local) {
    let _: u32 = c.at;
    let _: &Name = &c.name;
    let _: &Vec<Param> = &c.params;
    let _: &Vec<Local> = &c.locals;
    let _: &Vec<Stmt> = &c.apply;
    match local {
        Local::Act(at, action) => {
            let _: &u32 = at;
            let _: &Action = action;
        }
        Local::Tab(at, table) => {
            let _: &u32 = at;
            let _: &Table = table;
        }
        Local::Reg(at, register) => {
            let _: &u32 = at;
            let _: &Register = register;
        }
        Local::Const(at, ty, name, e) => {
            let _: &u32 = at;
            let _: &PTy = ty;
            let _: &Name = name;
            let _: &Expr = e;
        }
        Local::Var(at, ty, name, start) => {
            let _: &u32 = at;
            let _: &PTy = ty;
            let _: &Name = name;
            let _: &Option<Expr> = start;
        }
    }
    if never() {
        forget::<Result<Control, AllocError>>(c.copy(alloc));
        forget::<Result<Local, AllocError>>(local.copy(alloc));
    }
}

/// Actions, tables, registers and parameters.
pub fn declarations(alloc: Global, a: &Action, t: &Table, r: &Register, param: &Param) {
    let _: u32 = a.at;
    let _: &Name = &a.name;
    let _: &Vec<(PTy, Name)> = &a.params;
    let _: &Vec<Stmt> = &a.body;
    let _: u32 = t.at;
    let _: &Name = &t.name;
    let _: &Vec<(Expr, Name)> = &t.keys;
    let _: &Vec<Name> = &t.actions;
    let _: &Option<(Name, Vec<Expr>)> = &t.default;
    let _: bool = t.fixed;
    let _: Option<u128> = t.size;
    let _: u32 = r.at;
    let _: &PTy = &r.ty;
    let _: u128 = r.count;
    let _: &Name = &r.name;
    let _: u32 = param.at;
    let _: Way = param.way;
    let _: &PTy = &param.ty;
    let _: &Name = &param.name;
    if never() {
        forget::<Result<Action, AllocError>>(a.copy(alloc));
        forget::<Result<Table, AllocError>>(t.copy(alloc));
        forget::<Result<Register, AllocError>>(r.copy(alloc));
        forget::<Result<Param, AllocError>>(param.copy(alloc));
    }
}

/// Parsers and their states.
pub fn parsers(alloc: Global, p: &Parser, s: &ParserState, way: Way) {
    let _: u32 = p.at;
    let _: &Name = &p.name;
    let _: &Vec<Param> = &p.params;
    let _: &Vec<ParserState> = &p.states;
    let _: u32 = s.at;
    let _: &Name = &s.name;
    let _: &Vec<Stmt> = &s.body;
    let _: &Transition = &s.next;
    match way {
        Way::Plain | Way::Into | Way::Out | Way::Both => {}
    }
    if never() {
        forget::<Result<Parser, AllocError>>(p.copy(alloc));
        forget::<Result<ParserState, AllocError>>(s.copy(alloc));
    }
}

/// Transitions and key sets.
pub fn transitions(alloc: Global, next: &Transition, keys: &Keyset) {
    match next {
        Transition::None(at) => {
            let _: &u32 = at;
        }
        Transition::To(at, name) => {
            let _: &u32 = at;
            let _: &Name = name;
        }
        Transition::Select(at, asked, cases) => {
            let _: &u32 = at;
            let _: &Vec<Expr> = asked;
            let _: &Vec<(Vec<Keyset>, Name)> = cases;
        }
    }
    match keys {
        Keyset::Any(at) => {
            let _: &u32 = at;
        }
        Keyset::One(at, e) => {
            let _: &u32 = at;
            let _: &Expr = e;
        }
        Keyset::Masked(at, e, mask) => {
            let _: &u32 = at;
            let _: &Expr = e;
            let _: &Expr = mask;
        }
    }
    if never() {
        forget::<Result<Transition, AllocError>>(next.copy(alloc));
        forget::<Result<Keyset, AllocError>>(keys.copy(alloc));
    }
}

/// Statements with a name, and blocks.
pub fn statements(alloc: Global, s: &Stmt) {
    match s {
        Stmt::Nothing(..) | Stmt::If(..) | Stmt::Return(..) | Stmt::Exit(..) => {}
        Stmt::Block(at, body) => {
            let _: &u32 = at;
            let _: &Vec<Stmt> = body;
        }
        Stmt::Var(at, ty, name, start) => {
            let _: &u32 = at;
            let _: &PTy = ty;
            let _: &Name = name;
            let _: &Option<Expr> = start;
        }
        Stmt::Assign(at, path, e) => {
            let _: &u32 = at;
            let _: &Vec<Name> = path;
            let _: &Expr = e;
        }
        Stmt::Call(at, path, args) => {
            let _: &u32 = at;
            let _: &Vec<Name> = path;
            let _: &Vec<Arg> = args;
        }
    }
    if never() {
        forget::<Result<Stmt, AllocError>>(s.copy(alloc));
    }
}

/// The other statements.
pub fn turns(s: &Stmt) {
    match s {
        Stmt::Block(..) | Stmt::Var(..) | Stmt::Assign(..) | Stmt::Call(..) => {}
        Stmt::Nothing(at) => {
            let _: &u32 = at;
        }
        Stmt::If(at, test, yes, no) => {
            let _: &u32 = at;
            let _: &Expr = test;
            let _: &Box<Stmt> = yes;
            let _: &Option<Box<Stmt>> = no;
        }
        Stmt::Return(at) => {
            let _: &u32 = at;
        }
        Stmt::Exit(at) => {
            let _: &u32 = at;
        }
    }
}

/// Arguments of calls.
pub fn arguments(alloc: Global, arg: &Arg) {
    match arg {
        Arg::One(at, e) => {
            let _: &u32 = at;
            let _: &Expr = e;
        }
        Arg::Many(at, list) => {
            let _: &u32 = at;
            let _: &Vec<Expr> = list;
        }
    }
    if never() {
        forget::<Result<Arg, AllocError>>(arg.copy(alloc));
    }
}

/// Expressions that no operator makes.
pub fn expressions(alloc: Global, e: &Expr) {
    match e {
        Expr::Num(at, literal) => {
            let _: &u32 = at;
            let _: &Literal = literal;
        }
        Expr::Flag(at, flag) => {
            let _: &u32 = at;
            let _: &bool = flag;
        }
        Expr::Path(at, path) => {
            let _: &u32 = at;
            let _: &Vec<Name> = path;
        }
        Expr::Valid(at, path) => {
            let _: &u32 = at;
            let _: &Vec<Name> = path;
        }
        Expr::Applied(at, name, hit) => {
            let _: &u32 = at;
            let _: &Name = name;
            let _: &bool = hit;
        }
        Expr::ErrorName(at, name) => {
            let _: &u32 = at;
            let _: &Name = name;
        }
        Expr::Not(..) | Expr::Invert(..) | Expr::Negate(..) | Expr::Bin(..) => {}
        Expr::Choice(..) | Expr::Slice(..) | Expr::Cast(..) => {}
    }
    if never() {
        forget::<Result<Expr, AllocError>>(e.copy(alloc));
    }
}

/// Expressions that an operator makes.
pub fn operations(e: &Expr) {
    match e {
        Expr::Num(..) | Expr::Flag(..) | Expr::Path(..) | Expr::Valid(..) => {}
        Expr::Applied(..) | Expr::ErrorName(..) | Expr::Slice(..) | Expr::Cast(..) => {}
        Expr::Not(at, a) => {
            let _: &u32 = at;
            let _: &Box<Expr> = a;
        }
        Expr::Invert(at, a) => {
            let _: &u32 = at;
            let _: &Box<Expr> = a;
        }
        Expr::Negate(at, a) => {
            let _: &u32 = at;
            let _: &Box<Expr> = a;
        }
        Expr::Bin(at, op, a, b) => {
            let _: &u32 = at;
            let _: &Op = op;
            let _: &Box<Expr> = a;
            let _: &Box<Expr> = b;
        }
        Expr::Choice(at, test, yes, no) => {
            let _: &u32 = at;
            let _: &Box<Expr> = test;
            let _: &Box<Expr> = yes;
            let _: &Box<Expr> = no;
        }
    }
}

/// Slices and casts.
pub fn cuts(e: &Expr) {
    match e {
        Expr::Num(..) | Expr::Flag(..) | Expr::Path(..) | Expr::Valid(..) => {}
        Expr::Applied(..) | Expr::ErrorName(..) | Expr::Not(..) | Expr::Invert(..) => {}
        Expr::Negate(..) | Expr::Bin(..) | Expr::Choice(..) => {}
        Expr::Slice(at, a, high, low) => {
            let _: &u32 = at;
            let _: &Box<Expr> = a;
            let _: &u8 = high;
            let _: &u8 = low;
        }
        Expr::Cast(at, ty, a) => {
            let _: &u32 = at;
            let _: &PTy = ty;
            let _: &Box<Expr> = a;
        }
    }
}

/// Types.
pub fn types(alloc: Global, ty: &PTy) {
    match ty {
        PTy::Bit(width) => {
            let _: &u8 = width;
        }
        PTy::Bool => {}
        PTy::Named(name) => {
            let _: &Name = name;
        }
    }
    if never() {
        forget::<Result<PTy, AllocError>>(ty.copy(alloc));
    }
}

/// The operators in their order.
pub fn operators() -> [Op; 17] {
    [
        Op::Mul,
        Op::Add,
        Op::Sub,
        Op::Concat,
        Op::Shl,
        Op::Shr,
        Op::BitAnd,
        Op::BitXor,
        Op::BitOr,
        Op::Less,
        Op::LessEq,
        Op::More,
        Op::MoreEq,
        Op::Equal,
        Op::Differ,
        Op::Both,
        Op::Either,
    ]
}

/// What a text of statements or of a program is refused for.
pub fn faults(stop: ReadStop, fault: &ProgramFault, wrong: ProgramTypeFault) {
    match stop {
        ReadStop::NoMemory => {}
        ReadStop::Syntax { at } => {
            let _: u32 = at;
        }
        ReadStop::LeftOut { at } => {
            let _: u32 = at;
        }
        ReadStop::TooDeep { at } => {
            let _: u32 = at;
        }
    }
    match fault {
        ProgramFault::NoMemory => {}
        ProgramFault::Lex(inner) => {
            let _: &LexFault = inner;
        }
        ProgramFault::Syntax { at } => {
            let _: &u32 = at;
        }
        ProgramFault::TooDeep { at } => {
            let _: &u32 = at;
        }
        ProgramFault::LeftOut { at, what } => {
            let _: &u32 = at;
            let _: &Name = what;
        }
    }
    match wrong {
        ProgramTypeFault::NoMemory => {}
        ProgramTypeFault::Type_ { at, rule } => {
            let _: u32 = at;
            forget::<ProgramRule>(rule);
        }
    }
}

/// The rules in their order.
pub fn rules() -> [ProgramRule; 11] {
    [
        ProgramRule::NameTwice,
        ProgramRule::NoSuchName,
        ProgramRule::WidthDiffers,
        ProgramRule::KindDiffers,
        ProgramRule::NotWritable,
        ProgramRule::WrongPlace,
        ProgramRule::ParserCycle,
        ProgramRule::BadSize,
        ProgramRule::BadMain,
        ProgramRule::KeyKinds,
        ProgramRule::Limit,
    ]
}
