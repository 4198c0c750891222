//! The parts of a program that a switch runs.

use crate::header::{Field, Header};
use bit_values::Bits;
use lex_text::Name;
use p4_tree::{Expr, ParserState, Stmt};

/// A register: its full name, the bits of a cell, and how many cells it has.
#[derive(Drop)]
pub struct Cells {
    pub name: Name,
    pub width: u8,
    pub count: u128,
}

/// What a control runs: the statements that set its variables, and then its body.
pub struct Body {
    pub locals: Vec<Stmt>,
    pub body: Vec<Stmt>,
}

impl Drop for Body {
    fn drop(self) {
        let Body {
            locals: _locals,
            body: _body,
        } = self;
    }
}

/// A parameter of an action: its full name and its bits.
#[derive(Drop)]
pub struct Taken {
    pub name: Name,
    pub width: u8,
}

/// An action by its full name, whose names stand for what they name.
pub struct Action {
    pub name: Name,
    pub params: Vec<Taken>,
    pub body: Vec<Stmt>,
}

impl Drop for Action {
    fn drop(self) {
        let Action {
            name: _name,
            params: _params,
            body: _body,
        } = self;
    }
}

/// A key of a table, and the name of how it is matched.
#[derive(Drop)]
pub struct Key {
    pub value: Expr,
    pub kind: Name,
}

/// An action by its full name, and words for its parameters.
#[derive(Drop)]
pub struct Chosen {
    pub action: Name,
    pub args: Vec<Bits>,
}

/// A table by its full name, with the default that is written, and whether it is `const`.
pub struct Table {
    pub name: Name,
    pub keys: Vec<Key>,
    pub actions: Vec<Name>,
    pub default: Chosen,
    pub fixed: bool,
}

impl Drop for Table {
    fn drop(self) {
        let Table {
            name: _name,
            keys: _keys,
            actions: _actions,
            default: _default,
            fixed: _,
        } = self;
    }
}

/// The parts of a program. Paths begin with fixed roots, and what controls and actions declare has
/// its full name.
pub struct Parts {
    pub registers: Vec<Cells>,
    pub headers: Vec<Header>,
    pub metadata: Vec<Field>,
    pub states: Vec<ParserState>,
    pub actions: Vec<Action>,
    pub tables: Vec<Table>,
    pub verify: Body,
    pub ingress: Body,
    pub egress: Body,
    pub compute: Body,
    pub emits: Vec<Vec<Name>>,
}

impl Drop for Parts {
    fn drop(self) {
        let Parts {
            registers: _registers,
            headers: _headers,
            metadata: _metadata,
            states: _states,
            actions: _actions,
            tables: _tables,
            verify: _verify,
            ingress: _ingress,
            egress: _egress,
            compute: _compute,
            emits: _emits,
        } = self;
    }
}
