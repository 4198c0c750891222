//! Entries of tables.

ghost use Rattle.std.specs.Prelude.{◌≡◌, true, map, IfOk, IfSome};
ghost use Rattle.std.specs.Option.{option_map};
ghost use Rattle.table_entries.specs.Entries.{act_in};
ghost use Rattle.table_entries.specs.View.{match_of, entry_of, act_of, chosen_act};
ghost use Rattle.table_entries.specs.Walk.{lent};

use bit_values::Bits;
use std::alloc::{AllocError, Global};
use table_shapes::copy_words;

/// What an entry asks of a key: a number, the first bits of one, or the bits of one under a mask.
#[derive(Clone, Copy, Debug, PartialEq, Eq)]
pub enum Match {
    Exact(Bits),
    /// A number, and how many of its bits count.
    Lpm(Bits, u8),
    /// A number and its mask.
    Ternary(Bits, Bits),
}

/// An entry: what it asks of each key, and the action that it runs, by its number, with these words
/// for its parameters. The priority counts in tables with a ternary key alone.
#[derive(Debug, Drop)]
pub struct Entry {
    pub keys: Vec<Match>,
    pub action: u32,
    pub args: Vec<Bits>,
    pub priority: u32,
}

/// An action by its number, and words for its parameters.
#[derive(Debug, Drop)]
pub struct Act {
    pub action: u32,
    pub args: Vec<Bits>,
}

/// What a table chooses for its keys: an action, words for its parameters, and whether an entry
/// fits.
#[derive(Clone, Copy, Debug)]
pub struct Chosen<'a> {
    pub action: u32,
    pub args: &'a [Bits],
    pub hit: bool,
}

fn copy_matches(alloc: Global, list: &[Match]) -> Result<Vec<Match>, AllocError>
    ensures { IfOk result (λ v. v.items ≡ list.now) }
{
    let mut copies = Vec::new(alloc);
    for m in list {
        copies.push(*m)?;
    }
    Ok(copies)
}

impl Entry {
    /// An equal entry.
    pub fn copy(&self, alloc: Global) -> Result<Entry, AllocError>
        ensures { IfOk result (λ e. entry_of e ≡ entry_of self.now) }
    {
        let keys = copy_matches(alloc, &self.keys)?;
        let args = copy_words(alloc, &self.args)?;
        Ok(Entry {
            keys,
            action: self.action,
            args,
            priority: self.priority,
        })
    }

    /// What it runs.
    pub(crate) fn act(&self, alloc: Global) -> Result<Act, AllocError>
        ensures { IfOk result (λ a. act_of a ≡ act_in (entry_of self.now)) }
    {
        let args = copy_words(alloc, &self.args)?;
        Ok(Act {
            action: self.action,
            args,
        })
    }
}

impl Act {
    /// An equal action with equal words.
    pub fn copy(&self, alloc: Global) -> Result<Act, AllocError>
        ensures { IfOk result (λ a. act_of a ≡ act_of self.now) }
    {
        let args = copy_words(alloc, &self.args)?;
        Ok(Act {
            action: self.action,
            args,
        })
    }
}

/// What is chosen where an entry runs.
pub fn of_entry(found: Option<&Entry>) -> Option<Chosen<'_>>
    ensures acts { option_map chosen_act result ≡ option_map act_in (option_map entry_of (lent found.entry)) }
    ensures hit { IfSome result (λ c. c.hit ≡ true) }
{
    let e = found?;
    Some(Chosen {
        action: e.action,
        args: &e.args,
        hit: true,
    })
}

/// What is chosen where an entry runs this.
pub fn of_act(found: Option<&Act>) -> Option<Chosen<'_>>
    ensures acts { option_map chosen_act result ≡ option_map act_of (lent found.entry) }
    ensures hit { IfSome result (λ c. c.hit ≡ true) }
{
    let act = found?;
    Some(Chosen {
        action: act.action,
        args: &act.args,
        hit: true,
    })
}

/// Equal entries.
pub fn copy_entries(alloc: Global, list: &[Entry]) -> Result<Vec<Entry>, AllocError>
    ensures { IfOk result (λ v. map entry_of v.items ≡ map entry_of list.now) }
{
    let mut copies = Vec::new(alloc);
    for e in list {
        copies.push(e.copy(alloc)?)?;
    }
    Ok(copies)
}
