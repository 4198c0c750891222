//! The names that are written in a control.

ghost use Rattle.std.specs.Prelude.{◌≡◌, IfOk, map, string_bytes};
ghost use Rattle.p4_tree.specs.View.{control_of, local_of};
ghost use Rattle.p4_meaning.specs.Scope.{full};
ghost use Rattle.exit_programs.specs.Programs.{name_in};
ghost use Rattle.exit_rewriting.specs.Marks.{AreMarks, Adds, from_each};
ghost use Rattle.exit_rewriting.specs.Groups.{is_marked_in};
ghost use Rattle.exit_rewriting.specs.Exiting.{own_marks, name_at};

use crate::groups::Groups;
use crate::marks::Marks;
use lex_text::Name;
use p4_tree::{Control, Local};
use std::alloc::{AllocError, Global};

/// A control, with the names of the registers, tables and actions that it declares.
#[derive(Drop)]
pub(crate) struct Place {
    control: Name,
    own: Marks,
}

/// The names of what a declaration of a control declares.
fn add_own(alloc: Global, own: &mut Marks, local: &Local) -> Result<(), AllocError>
    ensures { IfOk result (λ _. Adds own.old own.new (own_marks (local_of local.now))) }
{
    match local {
        Local::Act(_, action) => own.add_name(alloc, &action.name, true),
        Local::Tab(_, table) => own.add_name(alloc, &table.name, true),
        Local::Reg(_, register) => own.add_name(alloc, &register.name, true),
        Local::Const(_, _, _, _) => Ok(()),
        Local::Var(_, _, _, _) => Ok(()),
    }
}

/// The names of what a control declares.
fn own_names(alloc: Global, locals: &[Local]) -> Result<Marks, AllocError>
    ensures { IfOk result (λ m. AreMarks m (from_each own_marks (map local_of locals.now))) }
{
    let mut own = Marks::new(alloc);
    for local in locals {
        add_own(alloc, &mut own, local)?;
    }
    Ok(own)
}

/// The full name of what is declared in a control.
fn full(alloc: Global, control: &Name, x: &Name) -> Result<String, AllocError>
    ensures { IfOk result (λ t. string_bytes t ≡ full control.now x.now) }
{
    let mut text = String::from_str(alloc, x.as_str())?;
    text.push_str(".")?;
    text.push_str(control.as_str())?;
    Ok(text)
}

impl Place {
    /// The place in a control.
    pub(crate) fn new(alloc: Global, control: &Control) -> Result<Place, AllocError>
        ensures { IfOk result (λ p. name_at p ≡ name_in (control_of control.now)) }
    {
        let own = own_names(alloc, &control.locals)?;
        let control = control.name.copy(alloc)?;
        Ok(Place { control, own })
    }

    /// The full name of what the control declares, and else the name.
    pub(crate) fn full_name(&self, alloc: Global, x: &Name) -> Result<String, AllocError>
        ensures { IfOk result (λ t. string_bytes t ≡ name_at self.now x.now) }
    {
        if self.own.is_marked(x.as_str()) {
            full(alloc, &self.control, x)
        } else {
            String::from_str(alloc, x.as_str())
        }
    }

    /// Whether the full name of a name is marked.
    pub(crate) fn is_marked(
        &self,
        alloc: Global,
        marks: &Groups,
        x: &Name,
    ) -> Result<bool, AllocError>
        ensures { IfOk result (λ b. b ≡ is_marked_in marks.now (name_at self.now x.now)) }
    {
        let name = self.full_name(alloc, x)?;
        Ok(marks.is_marked(name.as_str()))
    }
}
