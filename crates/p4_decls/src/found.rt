//! What a reader found.

use lex_text::Name;
use p4_tree::Expr;

/// The properties of a table.
#[derive(Drop)]
pub struct FoundProps {
    pub keys: Option<Vec<(Expr, Name)>>,
    pub size: Option<u128>,
    pub actions: Option<Vec<Name>>,
    pub default: Option<(Name, Vec<Expr>)>,
    pub fixed: bool,
}
