//! Contents of control variables go into the tables of a map.

ghost use Rattle.std.specs.Prelude.{◌≡◌, ◌<◌, ◌+◌, [], length, map, slice_get, option_map, OnOk, IfOk};
ghost use Rattle.std.specs.List.{AllByRecursion};
ghost use Rattle.indus_tree.specs.State.{members};
ghost use Rattle.indus_tree.specs.View.{decl_of};
ghost use Rattle.indus_values.specs.View.{contents_from, contents_of, or_no_members};
ghost use Rattle.p4_tables.specs.State.{entries_in};
ghost use Rattle.p4_tables.specs.Faults.{IsReplaceable};
ghost use Rattle.p4_tables.specs.Programs.{shapes};
ghost use Rattle.control_tables.specs.Contents.{entries_for, default_for};
ghost use Rattle.control_maps.specs.Numbers.{put_in, load_in};
ghost use Rattle.set_contents.specs.Maps.{map_of, numbered_of};
ghost use Rattle.loaded_tables.specs.Loading.{AreTaken, keys_in};
ghost use Rattle.loaded_tables.specs.Steps.{AreEmpty, seats_before};

use crate::numbering::Mapped;
use control_tables::contents_for;
use indus_tree::{Decl, DeclKind};
use indus_values::ControlValue;
use p4_tables::TableState;
use std::alloc::{AllocError, Global};

/// For each declaration, how many control variables stand before it.
fn seats_before(alloc: Global, decls: &[Decl]) -> Result<Vec<usize>, AllocError>
    ensures { IfOk result (λ v. v.items ≡ seats_before 0 (map decl_of decls.now)) }
{
    let mut all = Vec::new(alloc);
    let mut seat = 0;
    for d in decls {
        all.push(seat)?;
        if let DeclKind::Control = d.kind {
            seat += 1;
        }
    }
    Ok(all)
}

/// The contents at a place, or none.
fn value_at<'a>(
    contents: &'a [ControlValue],
    place: usize,
    none: &'a ControlValue,
) -> &'a ControlValue
    requires { contents_of none.now ≡ members [] }
    ensures { contents_of result.now ≡ or_no_members (option_map contents_of (slice_get contents.now place)) }
{
    match contents.get(place) {
        Some(value) => value,
        None => none,
    }
}

/// One table is given the contents.
fn fill(
    alloc: Global,
    tables: &mut TableState,
    item: &Mapped,
    contents: &ControlValue,
) -> Result<(), AllocError>
    requires there { (numbered_of item.now).table < length tables.old }
    requires taken { IsReplaceable tables.old (numbered_of item.now).table
        (entries_for (numbered_of item.now).action (contents_of contents.now))
        (default_for (numbered_of item.now).action (contents_of contents.now)) }
    ensures tables { OnOk result (tables.new
        ≡ put_in (numbered_of item.now) (contents_of contents.now) tables.old) }
    ensures shapes { shapes tables.new ≡ shapes tables.old }
{
    let (list, default) = contents_for(alloc, contents, item.1)?;
    tables.replace(alloc, item.0, list, default)
}

/// Each table of a map is given the contents of its variable. None of them holds an entry before.
pub(crate) fn load(
    alloc: Global,
    tables: &mut TableState,
    mapped: &[Mapped],
    decls: &[Decl],
    contents: &[ControlValue],
) -> Result<(), AllocError>
    requires empty { AreEmpty tables.old (map_of mapped.now) }
    requires declared { AllByRecursion (λ n. n.variable < length decls.now) (map_of mapped.now) }
    requires taken { AreTaken (entries_in tables.old) (map_of mapped.now)
        (contents_from (map decl_of decls.now) contents.now) }
    ensures tables { OnOk result (tables.new
        ≡ load_in (map_of mapped.now) (contents_from (map decl_of decls.now) contents.now) tables.old) }
    ensures shapes { shapes tables.new ≡ shapes tables.old }
    // each key is an entry
    ensures entries { OnOk result (entries_in tables.new ≡ entries_in tables.old
        + keys_in (map_of mapped.now) (contents_from (map decl_of decls.now) contents.now)) }
{
    let seats = seats_before(alloc, decls)?;
    for item in mapped {
        let none = ControlValue::Members(Vec::new(alloc));
        let value = value_at(contents, seats[item.2 as usize], &none);
        fill(alloc, tables, item, value)?;
    }
    Ok(())
}
