//! What a reader found.

use p4_tree::Expr;

/// A tree and its height.
#[derive(Drop)]
pub struct Found {
    pub tree: Expr,
    pub height: u16,
}
