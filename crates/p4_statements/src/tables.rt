//! What actions do, and the application of a table.

ghost use Rattle.std.specs.Prelude.{◌≡◌, ◌∷◌, [], Some, true, drop, IfOk, OnOk, map};
ghost use Rattle.std.specs.Option.{option_map};
ghost use Rattle.p4_meaning.specs.Store.{set_value};
ghost use Rattle.p4_meaning.specs.Actions.{act, act_if, bound, flow_behind};
ghost use Rattle.p4_meaning.specs.Tables.{apply_if, calls_in, key_words, table_named, test_behind};
ghost use Rattle.p4_resolved.specs.Lent.{lent};
ghost use Rattle.p4_parts.specs.PartsIn.{action_in, key_in, param_in, parts_in, table_in};
ghost use Rattle.p4_packets.specs.Fields.{store_of};
ghost use Rattle.p4_statements.specs.Outcomes.{outcome_of};
ghost use Rattle.p4_statements.specs.Runs.{ended, flow_of, run_of, tested_of};
ghost use Rattle.p4_statements.specs.Calls.{word_at};

use crate::calls::{Calls, NoCalls};
use crate::outcome::{Outcome, Tables};
use crate::run::{Flow, Run, Tested};
use crate::statements::run_stmts;
use bit_values::{Bits, sound_width};
use lex_text::Name;
use p4_packets::Fields;
use p4_parts::{Action, Key, Parts, Table, Taken, action_named, args_of, params_of, table_named};
use p4_tree::Arg;
use p4_values::{same_text, value_of};
use std::alloc::{AllocError, Global};

/// `return` ends the action that it stands in.
fn flow_behind(flow: Flow) -> Flow
    ensures { flow_of result ≡ flow_behind (flow_of flow) }
{
    match flow {
        Flow::Go => Flow::Go,
        Flow::Return => Flow::Go,
        Flow::Exit => Flow::Exit,
    }
}

/// The word that a parameter has: it is cut or widened to its width, and 0 where none is given.
fn word_for(width: u8, words: &[Bits], i: usize) -> Bits
    ensures { result ≡ word_at width (drop i words.now) }
{
    if i < words.len() {
        words[i].cast(sound_width(width))
    } else {
        Bits::default().cast(sound_width(width))
    }
}

/// A parameter has its word.
fn bind_one(
    alloc: Global,
    p: &Taken,
    words: &[Bits],
    i: usize,
    s: &mut Fields,
) -> Result<(), AllocError>
    ensures { OnOk result (store_of s.new ≡ set_value (store_of s.old) ((param_in p.now).name ∷ []) (word_at (param_in p.now).width (drop i words.now))) }
{
    let word = word_for(p.width, words, i);
    s.declare(alloc, &p.name, word)
}

/// The parameters have these words.
fn bind(alloc: Global, params: &[Taken], words: &[Bits], s: &mut Fields) -> Result<(), AllocError>
    ensures { OnOk result (store_of s.new ≡ bound (map param_in params.now) words.now (store_of s.old)) }
{
    for i in 0..params.len() {
        bind_one(alloc, &params[i], words, i, s)?;
    }
    Ok(())
}

/// An action on words for its parameters. In it no action is called and no table applied.
fn act(alloc: Global, a: &Action, words: &[Bits], r: &mut Run) -> Result<Flow, AllocError>
    ensures { IfOk result (λ flow. ended (run_of r.new) (flow_of flow) ≡ act (action_in a.now) words.now (run_of r.old)) }
{
    bind(alloc, &a.params, words, &mut r.fields)?;
    let flow = run_stmts(alloc, &NoCalls, &a.body, r)?;
    Ok(flow_behind(flow))
}

/// What an action does that may be there.
fn act_if(
    alloc: Global,
    action: Option<&Action>,
    words: &[Bits],
    r: &mut Run,
) -> Result<Flow, AllocError>
    ensures { IfOk result (λ flow. ended (run_of r.new) (flow_of flow) ≡ act_if (option_map action_in (lent action.entry)) words.now (run_of r.old)) }
{
    match action {
        None => Ok(Flow::Go),
        Some(a) => act(alloc, a, words, r),
    }
}

/// The words of a table's keys, whose places give no width.
fn key_words(alloc: Global, keys: &[Key], s: &Fields) -> Result<Vec<Bits>, AllocError>
    ensures { IfOk result (λ v. v.items ≡ key_words (map key_in keys.now) (store_of s.now)) }
{
    let mut words = Vec::new(alloc);
    for k in keys {
        words.push(value_of(&k.value, 0, s))?;
    }
    Ok(words)
}

/// What is chosen runs.
fn run_outcome(alloc: Global, outcome: Outcome<'_>, r: &mut Run) -> Result<Tested, AllocError>
    ensures { IfOk result (λ t. tested_of (run_of r.new) t ≡ test_behind
        (act_if (outcome_of outcome.entry).action (outcome_of outcome.entry).args (run_of r.old)) outcome.entry.hit) }
{
    let flow = act_if(alloc, outcome.action, outcome.args, r)?;
    Ok(Tested {
        flow,
        hit: outcome.hit,
    })
}

/// The actions of a program, and what its tables hold: so it is in ingress and egress.
#[derive(Drop)]
pub struct Held<'a, T: Tables> {
    pub parts: &'a Parts,
    pub tables: &'a T,
    ghost fits: { T.fits tables.now (parts_in parts.now) ≡ true },
}

/// The application of a table of a full name.
fn apply<T: Tables>(
    alloc: Global,
    parts: &Parts,
    tables: &T,
    name: &str,
    t: &Table,
    r: &mut Run,
) -> Result<Tested, AllocError>
    requires fits { T.fits tables.now (parts_in parts.now) ≡ true }
    requires named { table_named (map table_in parts.now.tables.items) name.now ≡ Some (table_in t.now) }
    ensures { IfOk result (λ u. tested_of (run_of r.new) u ≡ apply_if (map action_in parts.now.actions.items)
        (Some (table_in t.now)) (T.held tables.now (parts_in parts.now) name.now) (run_of r.old)) }
{
    let keys = key_words(alloc, &t.keys, &r.fields)?;
    let outcome = tables.choose(parts, name, &keys);
    let tested = run_outcome(alloc, outcome, r)?;
    Ok(tested)
}

impl<T: Tables> Calls for Held<'_, T> {
    ghost means = { λ h. calls_in (parts_in h.parts.now).actions (parts_in h.parts.now).tables (T.held h.tables.now (parts_in h.parts.now)) };

    fn run_action(
        &self,
        alloc: Global,
        action: &str,
        args: &[Arg],
        r: &mut Run,
    ) -> Result<Flow, AllocError> {
        let action = action_named(&self.parts.actions, action);
        let words = args_of(alloc, params_of(action), args, &r.fields)?;
        act_if(alloc, action, &words, r)
    }

    fn apply_table(&self, alloc: Global, table: &str, r: &mut Run) -> Result<Tested, AllocError> {
        match table_named(&self.parts.tables, table) {
            None => Ok(Tested {
                flow: Flow::Go,
                hit: false,
            }),
            Some(t) => apply(alloc, self.parts, self.tables, table, t, r),
        }
    }
}
