//! New contents of a control variable.
//!
//! All tables of the variable are emptied first, so that what comes has room, and then each is given the
//! contents.

ghost use Rattle.std.specs.Prelude.{◌≡◌, ◌<◌, length, OnOk, OnErr};
ghost use Rattle.p4_meaning.specs.Parts.{parts_of};
ghost use Rattle.p4_tables.specs.Faults.{IsReplaceable};
ghost use Rattle.p4_tables.specs.Programs.{shapes};
ghost use Rattle.indus_values.specs.View.{contents_of};
ghost use Rattle.control_tables.specs.Contents.{entries_for, default_for};
ghost use Rattle.control_maps.specs.Numbers.{put_in, set_in, IsMapOf, IsSettable};
ghost use Rattle.control_maps.specs.Steps.{AreEmptied};
ghost use Rattle.set_contents.specs.Maps.{map_of, numbered_of};
ghost use Rattle.set_contents.specs.Others.{OthersHold};

use control_tables::contents_for;
use indus_tree::Decl;
use indus_values::ControlValue;
use p4_machine::Pass;
use std::alloc::{AllocError, Global};

/// A table that holds a control variable: its number, that of its first action, that of the variable, and
/// the variable's declaration.
pub type Mapped = (u32, u32, u32, Decl);

/// New contents of a control variable of a switch go into each of its tables.
///
/// # Errors
///
/// `AllocError` where memory runs out.
pub fn set_variable<P: Pass>(
    alloc: Global,
    switch: &mut P,
    map: &[Mapped],
    variable: u32,
    contents: &ControlValue,
) -> Result<(), AllocError>
    requires mapped { IsMapOf (parts_of (P.program switch.old)) (P.tables switch.old) (map_of map.now) }
    requires settable { IsSettable (P.tables switch.old) (map_of map.now) variable (contents_of contents.now) }
    ensures program { P.program switch.new ≡ P.program switch.old }
    ensures cells { P.cells switch.new ≡ P.cells switch.old }
    ensures mapped { IsMapOf (parts_of (P.program switch.old)) (P.tables switch.new) (map_of map.now) }
    ensures shapes { shapes (P.tables switch.new) ≡ shapes (P.tables switch.old) }
    ensures others { OthersHold (map_of map.now) variable (P.tables switch.old) (P.tables switch.new) }
    ensures tables { OnOk result (P.tables switch.new
        ≡ set_in (map_of map.now) variable (contents_of contents.now) (P.tables switch.old)) }
{
    empty(alloc, switch, map, variable)?;
    for item in map {
        if item.2 == variable {
            fill(alloc, switch, item, contents)?;
        }
    }
    Ok(())
}

/// The tables of a variable are emptied.
fn empty<P: Pass>(
    alloc: Global,
    switch: &mut P,
    map: &[Mapped],
    variable: u32,
) -> Result<(), AllocError>
    requires mapped { IsMapOf (parts_of (P.program switch.old)) (P.tables switch.old) (map_of map.now) }
    ensures program { P.program switch.new ≡ P.program switch.old }
    ensures cells { P.cells switch.new ≡ P.cells switch.old }
    ensures mapped { IsMapOf (parts_of (P.program switch.old)) (P.tables switch.new) (map_of map.now) }
    ensures shapes { shapes (P.tables switch.new) ≡ shapes (P.tables switch.old) }
    ensures others { OthersHold (map_of map.now) variable (P.tables switch.old) (P.tables switch.new) }
    ensures emptied { OnOk result (AreEmptied (parts_of (P.program switch.old)) (map_of map.now) variable
        (P.tables switch.old) (P.tables switch.new) (length map.now)) }
{
    for item in map {
        if item.2 == variable {
            switch.set_table(alloc, item.0, Vec::new(alloc), None)?;
        }
    }
    Ok(())
}

/// One table is given the contents.
fn fill<P: Pass>(
    alloc: Global,
    switch: &mut P,
    item: &Mapped,
    contents: &ControlValue,
) -> Result<(), AllocError>
    requires there { (numbered_of item.now).table < length (P.tables switch.old) }
    requires taken { IsReplaceable (P.tables switch.old) (numbered_of item.now).table
        (entries_for (numbered_of item.now).action (contents_of contents.now))
        (default_for (numbered_of item.now).action (contents_of contents.now)) }
    ensures program { P.program switch.new ≡ P.program switch.old }
    ensures cells { P.cells switch.new ≡ P.cells switch.old }
    ensures tables { OnOk result (P.tables switch.new
        ≡ put_in (numbered_of item.now) (contents_of contents.now) (P.tables switch.old)) }
    ensures kept { OnErr result (P.tables switch.new ≡ P.tables switch.old) }
{
    let (list, default) = contents_for(alloc, contents, item.1)?;
    switch.set_table(alloc, item.0, list, default)
}
