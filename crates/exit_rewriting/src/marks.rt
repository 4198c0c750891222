//! Names with marks.

ghost use Rattle.std.specs.Prelude.{◌≡◌, ◌∷◌, [], IfOk, string_bytes};
ghost use Rattle.exit_rewriting.specs.Marks.{AreMarks, Adds, mark_at, is_marked, marked};

use indexmap::IndexMap;
use lex_text::Name;
use std::alloc::{AllocError, Global};

/// Names, each marked by a truth value. Of those of one name the first counts.
#[derive(Drop)]
pub(crate) struct Marks {
    table: IndexMap<String, bool>,
}

impl Marks {
    /// No name.
    pub(crate) fn new(alloc: Global) -> Marks
        ensures { AreMarks result [] }
    {
        Marks {
            table: IndexMap::new(alloc),
        }
    }

    /// One name more, which counts where it is new.
    fn add(&mut self, name: String, mark: bool) -> Result<(), AllocError>
        ensures { IfOk result (λ _. Adds self.old self.new (marked (string_bytes name) mark ∷ [])) }
    {
        if self.table.contains_key(name.as_str()) {
            return Ok(());
        }
        self.table.insert(name, mark)?;
        Ok(())
    }

    /// The same, for a name.
    pub(crate) fn add_name(
        &mut self,
        alloc: Global,
        name: &Name,
        mark: bool,
    ) -> Result<(), AllocError>
        ensures { IfOk result (λ _. Adds self.old self.new (marked name.now mark ∷ [])) }
    {
        self.add(String::from_str(alloc, name.as_str())?, mark)?;
        Ok(())
    }

    /// Whether the name is there, and its mark.
    pub(crate) fn mark(&self, name: &str) -> Option<bool>
        ensures { result ≡ mark_at self.now name.now }
    {
        self.table.get(name).copied()
    }

    /// Whether the name is there and its mark is true.
    pub(crate) fn is_marked(&self, name: &str) -> bool
        ensures { result ≡ is_marked self.now name.now }
    {
        match self.mark(name) {
            Some(mark) => mark,
            None => false,
        }
    }
}
