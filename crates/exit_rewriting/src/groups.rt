//! Full names with marks, kept by the controls that declare them.

ghost use Rattle.std.specs.Prelude.{◌≡◌, ◌∷◌, ◌++◌, [], IfOk};
ghost use Rattle.exit_rewriting.specs.Marks.{as_text};
ghost use Rattle.exit_rewriting.specs.Groups.{AreGroups, first_in, front_of, is_marked_in, mark_in};

use crate::marks::Marks;
use lex_text::Name;
use std::alloc::{AllocError, Global};

/// The names that a control declares, each marked. No full name is kept, so that a long name of a
/// control stands there once.
#[derive(Drop)]
pub(crate) struct Group {
    pub(crate) control: Name,
    pub(crate) marks: Marks,
}

/// What stands before the point and the control, where a text is a full name of the control.
fn front_of<'a>(control: &str, x: &'a str) -> Option<&'a str>
    ensures { as_text result ≡ front_of control.now x.now }
{
    match x.strip_suffix(control) {
        Some(front) => front.strip_suffix("."),
        None => None,
    }
}

impl Group {
    /// The mark of a full name.
    fn mark(&self, x: &str) -> Option<bool>
        ensures { result ≡ mark_in self.now x.now }
    {
        match front_of(self.control.as_str(), x) {
            Some(name) => self.marks.mark(name),
            None => None,
        }
    }
}

/// The controls of a program with their marks.
#[derive(Drop)]
pub(crate) struct Groups {
    groups: Vec<Group>,
}

impl Groups {
    /// No control.
    pub(crate) fn new(alloc: Global) -> Groups
        ensures { AreGroups result [] }
    {
        Groups {
            groups: Vec::new(alloc),
        }
    }

    /// A control goes behind those before.
    pub(crate) fn add(&mut self, group: Group) -> Result<(), AllocError>
        ensures { IfOk result (λ _. self.new.groups.items ≡ self.old.groups.items ++ group ∷ []) }
    {
        self.groups.push(group)?;
        Ok(())
    }

    /// The mark of a full name in the first control that has it.
    fn mark(&self, x: &str) -> Option<bool>
        ensures { result ≡ first_in self.now.groups.items x.now }
    {
        for group in &self.groups {
            let mark = group.mark(x);
            if mark.is_some() {
                return mark;
            }
        }
        None
    }

    /// Whether the full name is there and its mark is true.
    pub(crate) fn is_marked(&self, x: &str) -> bool
        ensures { result ≡ is_marked_in self.now x.now }
    {
        match self.mark(x) {
            Some(mark) => mark,
            None => false,
        }
    }
}
