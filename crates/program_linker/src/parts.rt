//! The monitor of a property, in a program's ingress and egress.

ghost use Rattle.std.specs.Prelude.{◌≡◌, IfOk};
ghost use Rattle.indus_tree.specs.View.{property_of};
ghost use Rattle.p4_tree.specs.View.{program_of};
ghost use Rattle.lower_lists.specs.FlatProperty.{IsFlatOf};
ghost use Rattle.tele_layout.specs.Layouts.{IsLayoutOf};
ghost use Rattle.linked_trees.specs.View.{lowered_of};
ghost use Rattle.lower_blocks.specs.Results.{rows_of};
ghost use Rattle.program_linker.specs.Parts.{lowered_in, rows_in};

use crate::form::roots_at;
use control_tables::ControlMap;
use indus_types::TypedProperty;
use linked_trees::Parts;
use lower_blocks::lower;
use lower_lists::FlatProperty;
use p4_tree::Program;
use std::alloc::{AllocError, Global};
use tele_layout::Layout;

/// The monitor's trees, and the tables of control variables.
#[tactic(auto, using(crate::proofs::Monitors::monitor_is, crate::proofs::Monitors::rows_are))]
pub(crate) fn monitor_of(
    alloc: Global,
    p: &TypedProperty,
    flat: &FlatProperty,
    l: &Layout,
    program: &Program,
) -> Result<(Parts, ControlMap), AllocError>
    requires flat { IsFlatOf (property_of p.now) flat.now }
    requires layout { IsLayoutOf (property_of p.now) l.now }
    ensures trees { IfOk result (λ m. lowered_of m.0 ≡ lowered_in (property_of p.now) (program_of program.now)) }
    ensures rows { IfOk result (λ m. rows_of m.1 ≡ rows_in (property_of p.now) (program_of program.now)) }
{
    let ingress = roots_at(alloc, program, 2)?;
    let egress = roots_at(alloc, program, 3)?;
    let lowered = lower(alloc, p, flat, l, &ingress, &egress)?;
    let parts = Parts {
        mark: l.first,
        tops: lowered.tops,
        entry_locals: lowered.entry_locals,
        exit_locals: lowered.exit_locals,
        entry: lowered.entry,
        exit: lowered.exit,
    };
    Ok((parts, lowered.map))
}
