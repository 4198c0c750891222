//! What a reader found.

use indus_tree::Expr;

/// A tree and its height.
#[derive(Drop)]
pub struct Found {
    pub tree: Expr,
    pub height: u16,
}

/// Trees and the greatest height.
#[derive(Drop)]
pub struct FoundAll {
    pub trees: Vec<Expr>,
    pub height: u16,
}
