//! The trees of properties. Each node keeps the number of its first token: the field `at`, or the
//! first part of a variant.

use bit_values::Operator;
use lex_text::{Literal, Name};

/// The type of a single value.
#[derive(Clone, Copy, Debug, PartialEq, Eq)]
pub enum Ty {
    /// A number of so many bits, 1 to 128.
    Bit(u8),
    /// A truth value.
    Bool,
}

/// What a variable holds.
#[derive(Debug)]
pub enum Shape {
    /// One value.
    One(Ty),
    /// So many values: a list of at most so many items, or an array of sensor cells.
    List(Ty, u8),
    /// A set, whose keys have these parts.
    SetOf(Vec<Ty>),
    /// A dict, whose keys have these parts, with the type of its values.
    DictOf(Vec<Ty>, Ty),
}

impl Drop for Shape {
    fn drop(self) {
        match self {
            Shape::One(_) => {}
            Shape::List(_, _) => {}
            Shape::SetOf(_first) => {}
            Shape::DictOf(_first, _) => {}
        }
    }
}

/// Who keeps a variable.
#[derive(Clone, Copy, Debug, PartialEq, Eq)]
pub enum DeclKind {
    /// It travels with the packet.
    Tele,
    /// The switch keeps it from packet to packet.
    Sensor,
    /// It stands in the packet or its metadata.
    Header,
    /// The control plane sets it for each switch.
    Control,
}

/// A declaration.
#[derive(Debug)]
pub struct Decl {
    pub at: u32,
    pub kind: DeclKind,
    pub name: Name,
    pub shape: Shape,
    /// The written initial value, a number or a truth value.
    pub start: Option<Expr>,
    /// The path of a header variable, part by part.
    pub path: Vec<Name>,
    /// Whether a header variable asks if the header at its path is valid.
    pub valid: bool,
}

impl Drop for Decl {
    fn drop(self) {
        let Decl {
            at: _,
            kind: _,
            name: _name,
            shape: _shape,
            start: _start,
            path: _path,
            valid: _,
        } = self;
    }
}

/// A binary operator.
#[derive(Clone, Copy, Debug, PartialEq, Eq)]
pub enum Op {
    Mul,
    Add,
    Sub,
    Shl,
    Shr,
    BitAnd,
    BitXor,
    BitOr,
    Less,
    LessEq,
    More,
    MoreEq,
    Equal,
    Differ,
    Both,
    Either,
}

impl Op {
    ghost use Rattle.std.specs.Prelude.{◌≡◌};
    ghost use Rattle.indus_tree.specs.Operators.{operator_of};

    /// The operator on numbers.
    pub fn operator(self) -> Operator
        ensures { result ≡ operator_of self }
    {
        match self {
            Op::Mul => Operator::Mul,
            Op::Add => Operator::Add,
            Op::Sub => Operator::Sub,
            Op::Shl => Operator::Shl,
            Op::Shr => Operator::Shr,
            Op::BitAnd => Operator::BitAnd,
            Op::BitXor => Operator::BitXor,
            Op::BitOr => Operator::BitOr,
            Op::Less => Operator::Less,
            Op::LessEq => Operator::LessEq,
            Op::More => Operator::More,
            Op::MoreEq => Operator::MoreEq,
            Op::Equal => Operator::Equal,
            Op::Differ => Operator::Differ,
            Op::Both => Operator::Both,
            Op::Either => Operator::Either,
        }
    }
}

/// An expression.
#[derive(Debug)]
pub enum Expr {
    Num(u32, Literal),
    Flag(u32, bool),
    Read(u32, Name),
    /// The number of a list's items.
    Length(u32, Name),
    /// A cell of a sensor array, or the value of a dict at a key.
    Index(u32, Name, Vec<Expr>),
    /// Whether a key, part by part, is in a set, or a value in a list.
    Member(u32, Vec<Expr>, Name),
    Not(u32, Box<Expr>),
    /// Each bit turned round.
    Invert(u32, Box<Expr>),
    Bin(u32, Op, Box<Expr>, Box<Expr>),
    /// The number in another width.
    Cast(u32, u8, Box<Expr>),
}

impl Drop for Expr {
    fn drop(self) {
        match self {
            Expr::Num(_, _) => {}
            Expr::Flag(_, _) => {}
            Expr::Read(_, _first) => {}
            Expr::Length(_, _first) => {}
            Expr::Index(_, _first, _second) => {}
            Expr::Member(_, _first, _second) => {}
            Expr::Not(_, _first) => {}
            Expr::Invert(_, _first) => {}
            Expr::Bin(_, _, _first, _second) => {}
            Expr::Cast(_, _, _first) => {}
        }
    }
}

/// A statement.
#[derive(Debug)]
pub enum Stmt {
    Assign(u32, Name, Expr),
    /// A sensor array, the index of a cell, and the value that the cell takes.
    Cell(u32, Name, Expr, Expr),
    /// A list, and the value that it takes as its last item.
    Push(u32, Name, Expr),
    /// A test, what is done where it holds, and what is done elsewhere.
    If(u32, Expr, Vec<Stmt>, Vec<Stmt>),
    /// The names of the items, the lists that are walked, and what is done in each turn.
    For(u32, Vec<Name>, Vec<Name>, Vec<Stmt>),
    Reject(u32),
    /// The report's place among those of the text, and its values.
    Report(u32, u16, Vec<Expr>),
}

impl Drop for Stmt {
    fn drop(self) {
        match self {
            Stmt::Assign(_, _first, _second) => {}
            Stmt::Cell(_, _first, _second, _third) => {}
            Stmt::Push(_, _first, _second) => {}
            Stmt::If(_, _first, _second, _third) => {}
            Stmt::For(_, _first, _second, _third) => {}
            Stmt::Reject(_) => {}
            Stmt::Report(_, _, _first) => {}
        }
    }
}

/// A property: its declarations and its three blocks.
#[derive(Debug)]
pub struct Property {
    pub at: u32,
    /// The edition of the language: 2 where the text begins with `edition 2;`, and else 1.
    pub edition: u8,
    pub decls: Vec<Decl>,
    /// Runs at the packet's first hop.
    pub init: Vec<Stmt>,
    /// Runs at every hop.
    pub tele: Vec<Stmt>,
    /// Runs at the packet's last hop.
    pub check: Vec<Stmt>,
}

impl Drop for Property {
    fn drop(self) {
        let Property {
            at: _,
            edition: _,
            decls: _decls,
            init: _init,
            tele: _tele,
            check: _check,
        } = self;
    }
}
