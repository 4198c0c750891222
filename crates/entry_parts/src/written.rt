//! Entries and defaults, by their form.

ghost use Rattle.std.specs.Prelude.{◌≡◌, codes, map, option_map};
ghost use Rattle.serde_json.specs.View.{view};
ghost use Rattle.json_parts.specs.Object.{members_of};
ghost use Rattle.json_parts.specs.Views.{Gives, object_seen};
ghost use Rattle.table_shapes.specs.View.{shape_of};
ghost use Rattle.entry_parts.specs.Written as written;
ghost use Rattle.entry_parts.specs.Views.{act_view, entry_view, part_views};

use crate::parts::{Part, parts};
use json_parts::{Members, ShapeFault, list_of, member_path};
use p4_tables::{KeyShape, Shape};
use serde_json::Value;
use std::alloc::Global;

/// An action by a name, with values for its parameters.
#[derive(Clone, Copy, Debug)]
pub(crate) struct WrittenAct<'a> {
    pub action: &'a str,
    pub args: &'a [Value],
}

/// An entry, as it is written.
#[derive(Debug, Drop)]
pub(crate) struct WrittenEntry<'a> {
    pub act: WrittenAct<'a>,
    pub key: Vec<Part<'a>>,
    pub priority: u32,
}

fn args<'a>(alloc: Global, path: &str, value: Option<&'a Value>) -> Result<&'a [Value], ShapeFault>
    ensures { Gives (λ list. map view list.now) result
        (written.args_from path.now (option_map (λ v. view v.now) value.entry)) }
{
    let Some(value) = value else {
        return Ok(&[]);
    };
    let Some(list) = list_of(value) else {
        return Err(ShapeFault::Shape {
            path: member_path(alloc, path, "args")?,
        });
    };
    Ok(list)
}

#[tactic(auto, unfolding(crate::specs::Written::act_at))]
fn act<'a>(
    alloc: Global,
    path: &str,
    members: &Members<'a, '_>,
) -> Result<WrittenAct<'a>, ShapeFault>
    ensures { Gives act_view result (written.act_at path.now (object_seen members.now)) }
{
    let action = members.text(alloc, "action")?;
    let value = members.maybe(alloc, "args")?;
    let args = args(alloc, path, value)?;
    Ok(WrittenAct { action, args })
}

#[tactic(auto, unfolding(crate::specs::Written::key_at))]
fn key<'a>(
    alloc: Global,
    path: &str,
    keys: &[KeyShape],
    members: &Members<'a, '_>,
) -> Result<Vec<Part<'a>>, ShapeFault>
    ensures { Gives (λ v. part_views v.items) result
        (written.key_at path.now keys.now (object_seen members.now)) }
{
    let list = members.list(alloc, "key")?;
    let path = member_path(alloc, path, "key")?;
    parts(alloc, path.as_str(), keys, list)
}

fn whole_below(value: Option<&Value>) -> Option<u32>
    ensures { result ≡ written.priority_in (option_map (λ v. view v.now) value.entry) }
{
    u32::try_from(value?.as_u64()?).ok()
}

#[tactic(auto, unfolding(crate::specs::Written::priority_at))]
fn priority(
    alloc: Global,
    path: &str,
    has_ternary: bool,
    members: &Members<'_, '_>,
) -> Result<u32, ShapeFault>
    ensures { Gives (λ n. n) result
        (written.priority_at path.now has_ternary (object_seen members.now)) }
{
    if !has_ternary {
        return Ok(0);
    }
    let value = members.maybe(alloc, "priority")?;
    match whole_below(value) {
        Some(priority) => Ok(priority),
        None => Err(ShapeFault::Shape {
            path: member_path(alloc, path, "priority")?,
        }),
    }
}

fn entry_members<'a, 'p>(
    alloc: Global,
    path: &'p str,
    has_ternary: bool,
    value: &'a Value,
) -> Result<Members<'a, 'p>, ShapeFault>
    ensures { Gives object_seen result
        (members_of path.now (written.entry_names has_ternary) (view value.now)) }
{
    if has_ternary {
        Members::new(alloc, path, &["action", "args", "key", "priority"], value)
    } else {
        Members::new(alloc, path, &["action", "args", "key"], value)
    }
}

/// The entry at a path, by its form.
#[tactic(auto, unfolding(crate::specs::Written::entry_at))]
pub(crate) fn written_entry<'a>(
    alloc: Global,
    path: &str,
    shape: &Shape,
    value: &'a Value,
) -> Result<WrittenEntry<'a>, ShapeFault>
    ensures { Gives entry_view result
        (written.entry_at path.now (shape_of shape.now) (view value.now)) }
{
    let has_ternary = shape.has_ternary();
    let members = entry_members(alloc, path, has_ternary, value)?;
    let act = act(alloc, path, &members)?;
    let key = key(alloc, path, &shape.keys, &members)?;
    let priority = priority(alloc, path, has_ternary, &members)?;
    members.end(alloc)?;
    Ok(WrittenEntry { act, key, priority })
}

/// The default at a path, by its form.
#[tactic(auto, unfolding(crate::specs::Written::default_at))]
pub(crate) fn written_default<'a>(
    alloc: Global,
    path: &str,
    value: &'a Value,
) -> Result<WrittenAct<'a>, ShapeFault>
    ensures { Gives act_view result (written.default_at path.now (view value.now)) }
{
    let members = Members::new(alloc, path, &["action", "args"], value)?;
    let act = act(alloc, path, &members)?;
    members.end(alloc)?;
    Ok(act)
}
