//! What is in sight at a place, with tables of the names.

ghost use Rattle.std.specs.Prelude.{◌≡◌, map, true};
ghost use Rattle.indus_tree.specs.View.{decl_of};
ghost use Rattle.indus_scopes.specs.NameTable.{texts};
ghost use Rattle.indus_scopes.specs.Items.{distinct, item_kinds, item_names};
ghost use Rattle.indus_scopes.specs.Scopes.{loop_of};

use crate::declared::Declared;
use crate::kind::Kind;
use crate::scope::{Block, Loop};
use indexmap::IndexSet;

/// What is in sight at a place, innermost loop first.
#[derive(Drop)]
pub struct Scope<'a> {
    /// The property's edition.
    pub edition: u8,
    pub decls: Declared<'a>,
    pub loops: Vec<Loop<'a>>,
    pub block: Block,
    /// The names of the items of the loops, those of the outermost first.
    pub items: IndexSet<String>,
    /// What the items are.
    pub kinds: Vec<Kind>,
    pub ghost listed: { texts items.keys ≡ item_names (map loop_of loops.items) },
    pub ghost kinded: { kinds.items ≡ item_kinds (map decl_of decls.decls.now) (map loop_of loops.items) },
    pub ghost once: { distinct (texts items.keys) ≡ true },
}
