//! What a reader found.

use lex_text::Name;
use p4_tree::{Expr, PTy};

/// A variable: its type, its name and perhaps its first value.
#[derive(Drop)]
pub struct FoundVariable {
    pub ty: PTy,
    pub name: Name,
    pub start: Option<Expr>,
}

/// A constant: its type, its name and its value.
#[derive(Drop)]
pub struct FoundConstant {
    pub ty: PTy,
    pub name: Name,
    pub value: Expr,
}
