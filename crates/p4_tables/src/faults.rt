//! What a table takes, and why it refuses a default.

ghost use Rattle.std.specs.Prelude.{◌≡◌};
ghost use Rattle.p4_tables.specs.Faults.{takes_entry, default_fault_in};
ghost use Rattle.table_entries.specs.View.{entry_of, act_of};
ghost use Rattle.table_shapes.specs.View.{shape_of};

use table_entries::{Act, Entry, are_for_keys};
use table_faults::EntryFault;
use table_shapes::{Shape, has_action, takes};

/// Whether a table of this shape takes an entry.
pub(crate) fn takes_entry(shape: &Shape, e: &Entry) -> bool
    ensures { result ≡ takes_entry (shape_of shape.now) (entry_of e.now) }
{
    are_for_keys(&shape.keys, &e.keys) && takes(&shape.actions, e.action, &e.args)
}

/// The first reason for which a table refuses a default.
pub(crate) fn default_fault_in(shape: &Shape, d: &Act) -> Option<EntryFault>
    ensures { result ≡ default_fault_in (shape_of shape.now) (act_of d.now) }
{
    if !has_action(&shape.actions, d.action) {
        Some(EntryFault::NoSuchAction)
    } else if !takes(&shape.actions, d.action, &d.args) {
        Some(EntryFault::WidthDiffers)
    } else if shape.fixed {
        Some(EntryFault::ConstDefault)
    } else {
        None
    }
}
