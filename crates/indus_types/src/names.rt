//! The names that a property declares.

ghost use Rattle.std.specs.Prelude.{◌≡◌, [], map, IfOk};
ghost use Rattle.indus_tree.specs.View.{decl_of};
ghost use Rattle.indus_scopes.specs.NameTable.{names_of, texts};
ghost use Rattle.indus_types.specs.NameTable.{AreNew};

use indexmap::IndexSet;
use indus_tree::Decl;
use std::alloc::{AllocError, Global};

/// The declared names, in the order in which they are first seen.
pub fn name_table(alloc: Global, decls: &[Decl]) -> Result<IndexSet<String>, AllocError>
    requires { AreNew [] (map decl_of decls.now) }
    ensures { IfOk result (λ t. texts t.keys ≡ names_of (map decl_of decls.now)) }
{
    let mut table = IndexSet::new(alloc);
    for d in decls {
        let name = String::from_str(alloc, d.name.as_str())?;
        table.insert(name)?;
    }
    Ok(table)
}
