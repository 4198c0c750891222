//! Entries and defaults of tables.

ghost use Rattle.std.specs.Prelude.{◌≡◌, codes, map, option_map, IfOk, true};
ghost use Rattle.std.specs.List.{list_all};
ghost use Rattle.serde_json.specs.View.{view};
ghost use Rattle.json_values.specs.Views.{Gives};
ghost use Rattle.table_faults.specs.declared.table.TableFault.TheVariants.{NoMemory, Entry as Refused};
ghost use Rattle.p4_tree.specs.View.{program_of};
ghost use Rattle.p4_types.specs.Numbers as numbers;
ghost use Rattle.json_parts.specs.Paths.{below};
ghost use Rattle.table_entries.specs.View.{act_of, entry_of, match_of};
ghost use Rattle.table_shapes.specs.View.{shape_of};
ghost use Rattle.entry_parts.specs.Matches.{matches_of};
ghost use Rattle.entry_parts.specs.Entries as entries;
ghost use Rattle.entry_parts.specs.Views.{act_view, listed_view, part_view, part_views};

use crate::matches::{args, matches};
use crate::parts::Part;
use crate::written::{WrittenAct, written_default, written_entry};
use json_parts::member_path;
use json_values::in_table;
use lex_text::Name;
use p4_tables::{Act, Entry, KeyShape, Match, Shape, ValueShape};
use p4_types::TypedProgram;
use serde_json::Value;
use std::alloc::{AllocError, Global};
use table_faults::{EntryFault, TableFault};

/// An action of a table's list: its number, and what its parameters hold.
#[derive(Clone, Copy, Debug)]
pub(crate) struct Listed<'a> {
    pub number: u32,
    pub params: &'a [ValueShape],
}

/// The table refuses what is at the path.
pub fn entry_refused(alloc: Global, path: &str, fault: EntryFault) -> TableFault
    ensures { (result ≡ NoMemory → ⊥) → result ≡ Refused path.now fault }
{
    match Name::new(alloc, path) {
        Ok(path) => TableFault::Entry { path, fault },
        Err(_) => TableFault::NoMemory,
    }
}

/// The number of an action that a text names, at a table of a control.
fn action_number(
    alloc: Global,
    program: &TypedProgram,
    control: &str,
    text: &str,
) -> Result<Option<u32>, AllocError>
    ensures { IfOk result (λ n. n ≡ entries.action_number
        (numbers.names numbers.actions (program_of program.now)) control.now text.now) }
{
    match program.action_number(text) {
        Some(number) => Ok(Some(number)),
        None => {
            let whole = format!(in alloc; "{control}.{text}")?;
            Ok(program.action_number(whole.as_str()))
        }
    }
}

fn listed_action(shape: &Shape, number: Option<u32>) -> Option<Listed<'_>>
    ensures { option_map listed_view result ≡ entries.listed (shape_of shape.now) number }
{
    let number = number?;
    let params = shape.params(number)?;
    Some(Listed { number, params })
}

fn fits(part: &Part) -> bool
    ensures { result ≡ entries.fits (part_view part.now) }
{
    match part {
        Part::Whole(_, _) | Part::Masked(_, _, _) => true,
        Part::Front(holds, _, length) => *length <= holds.width,
        Part::Past => false,
    }
}

fn all_fit(parts: &[Part]) -> bool
    ensures { result ≡ list_all entries.fits (part_views parts.now) }
{
    for part in parts {
        if !fits(part) {
            return false;
        }
    }
    true
}

fn key_fits(keys: &[KeyShape], parts: &[Part]) -> bool
    ensures { result ≡ entries.key_fits keys.now (part_views parts.now) }
{
    parts.len() == keys.len() && all_fit(parts)
}

/// The action with its arguments, where `fits` says whether the key fits.
fn act(
    alloc: Global,
    path: &str,
    listed: Option<Listed>,
    fits: bool,
    written: WrittenAct,
) -> Result<Act, TableFault>
    ensures { Gives act_of result
        (entries.act_by path.now fits (act_view written.entry) (option_map listed_view listed.entry)) }
{
    let Some(action) = listed else {
        return Err(entry_refused(alloc, path, EntryFault::NoSuchAction));
    };
    if fits && written.args.len() == action.params.len() {
        let path = member_path(alloc, path, "args")?;
        let args = args(alloc, path.as_str(), action.params, written.args)?;
        Ok(Act {
            action: action.number,
            args,
        })
    } else {
        Err(entry_refused(alloc, path, EntryFault::WidthDiffers))
    }
}

/// The action of a table of a control that takes this, with its arguments.
#[tactic(auto, unfolding(crate::specs::Entries::act_of))]
fn act_at(
    alloc: Global,
    program: &TypedProgram,
    control: &str,
    shape: &Shape,
    path: &str,
    fits: bool,
    written: WrittenAct,
) -> Result<Act, TableFault>
    ensures { Gives act_of result
        (entries.act_of (numbers.names numbers.actions (program_of program.now)) control.now
        (shape_of shape.now) path.now fits (act_view written.entry)) }
{
    let number = action_number(alloc, program, control, written.action)?;
    act(alloc, path, listed_action(shape, number), fits, written)
}

/// What the key at a path asks.
fn keys(alloc: Global, path: &str, parts: &[Part]) -> Result<Vec<Match>, TableFault>
    ensures { Gives (λ v. map match_of v.items) result
        (matches_of (below path.now (codes "key")) (part_views parts.now)) }
{
    let path = member_path(alloc, path, "key")?;
    matches(alloc, path.as_str(), parts)
}

/// The entry that the value at a path says, of a table of a control that takes this.
///
/// # Errors
///
/// The value's first fault, exactly where it has one; else `NoMemory` alone, where memory runs out.
#[tactic(auto, unfolding(crate::specs::Entries::entry_of))]
pub fn read_entry(
    alloc: Global,
    program: &TypedProgram,
    control: &str,
    shape: &Shape,
    path: &str,
    value: &Value,
) -> Result<Entry, TableFault>
    ensures { Gives entry_of result
        (entries.entry_of (numbers.names numbers.actions (program_of program.now)) control.now
        (shape_of shape.now) path.now (view value.now)) }
{
    let written = in_table(written_entry(alloc, path, shape, value))?;
    let fits = key_fits(&shape.keys, &written.key);
    let act = act_at(alloc, program, control, shape, path, fits, written.act)?;
    let keys = keys(alloc, path, &written.key)?;
    Ok(Entry {
        keys,
        action: act.action,
        args: act.args,
        priority: written.priority,
    })
}

/// The default that the value at a path says, likewise.
///
/// # Errors
///
/// The value's first fault, exactly where it has one; else `NoMemory` alone, where memory runs out.
#[tactic(auto, unfolding(crate::specs::Entries::default_of))]
pub fn read_default(
    alloc: Global,
    program: &TypedProgram,
    control: &str,
    shape: &Shape,
    path: &str,
    value: &Value,
) -> Result<Act, TableFault>
    ensures { Gives act_of result
        (entries.default_of (numbers.names numbers.actions (program_of program.now)) control.now
        (shape_of shape.now) path.now (view value.now)) }
{
    let written = in_table(written_default(alloc, path, value))?;
    act_at(alloc, program, control, shape, path, true, written)
}
