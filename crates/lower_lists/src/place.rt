//! Lists by their numbers, and items of loops.

use indus_tree::Ty;
use lex_text::Name;

/// A list: the number of its variable, the type of its items, and how many there are at most.
#[derive(Clone, Copy, Debug)]
pub struct ListPlace {
    pub number: usize,
    pub item: Ty,
    pub size: u8,
}

/// The item of a loop in one turn: its name, the number of its list, and its place there.
#[derive(Debug, Drop)]
pub struct Bound {
    pub name: Name,
    pub list: usize,
    pub turn: u8,
}
