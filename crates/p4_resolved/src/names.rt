//! Names that are found by a table.

ghost use Rattle.std.specs.Prelude.{◌≡◌, ◌∷◌, ◌++◌, [], IfOk, OnOk};
ghost use Rattle.p4_meaning.specs.Scope.{is_among};
ghost use Rattle.p4_resolved.specs.Scopes.{names_of};

use crate::latest::Latest;
use lex_text::Name;
use std::alloc::{AllocError, Global};

/// Names in order, and a table of them.
pub struct Names {
    rows: Latest<()>,
}

impl Drop for Names {
    fn drop(self) {
        let Names { rows: _rows } = self;
    }
}

impl Names {
    /// No name.
    pub(crate) fn new(alloc: Global) -> Names
        ensures { names_of result ≡ [] }
    {
        Names {
            rows: Latest::new(alloc),
        }
    }

    /// The name goes behind the others.
    pub(crate) fn push(&mut self, alloc: Global, name: &Name) -> Result<(), AllocError>
        ensures { OnOk result (names_of self.new ≡ names_of self.old ++ name.now ∷ []) }
    {
        self.rows.push(alloc, name, ())
    }

    /// The same names.
    pub(crate) fn copy(&self, alloc: Global) -> Result<Names, AllocError>
        ensures { IfOk result (λ n. names_of n ≡ names_of self.now) }
    {
        let mut names = Names::new(alloc);
        for row in self.rows.rows() {
            names.push(alloc, &row.0)?;
        }
        Ok(names)
    }

    /// Whether the name is one of them.
    pub(crate) fn has(&self, name: &str) -> bool
        ensures { result ≡ is_among (names_of self.now) name.now }
    {
        self.rows.find(name).is_some()
    }
}
