//! What tables take.

ghost use Rattle.std.specs.Prelude.{◌≡◌, ◌||◌, map, option_map, IfOk};
ghost use Rattle.table_shapes.specs.Shapes.{has_ternary, has_action, params_in, takes, have_widths};
ghost use Rattle.table_shapes.specs.View.{action_shape_of, shape_of};

use bit_values::Bits;
use std::alloc::{AllocError, Global};
use value_shapes::ValueShape;

/// How a key is matched.
#[derive(Clone, Copy, Debug, PartialEq, Eq)]
pub enum KeyKind {
    Exact,
    Lpm,
    Ternary,
}

/// A key of a table: how it is matched, and what it holds.
#[derive(Clone, Copy, Debug, PartialEq, Eq)]
pub struct KeyShape {
    pub kind: KeyKind,
    pub value: ValueShape,
}

/// An action of a table's list: its number, and what its parameters hold, in their order.
#[derive(Debug)]
pub struct ActionShape {
    pub number: u32,
    pub params: Vec<ValueShape>,
}

impl Drop for ActionShape {
    fn drop(self) {
        let ActionShape {
            number: _,
            params: _params,
        } = self;
    }
}

/// What a table takes: its keys, the actions of its list, and of the default that is written the
/// number of its action, its words and whether it is `const`.
#[derive(Debug)]
pub struct Shape {
    pub keys: Vec<KeyShape>,
    pub actions: Vec<ActionShape>,
    pub written: u32,
    pub written_args: Vec<Bits>,
    pub fixed: bool,
}

impl Drop for Shape {
    fn drop(self) {
        let Shape {
            keys: _keys,
            actions: _actions,
            written: _,
            written_args: _written_args,
            fixed: _,
        } = self;
    }
}

impl Shape {
    /// Whether some key is matched under a mask.
    pub fn has_ternary(&self) -> bool
        ensures { result ≡ has_ternary (shape_of self.now).keys }
    {
        has_ternary(&self.keys)
    }

    /// What the parameters of the action of a number hold, where it is in the table's list.
    pub fn params(&self, action: u32) -> Option<&[ValueShape]>
        ensures { option_map (λ values. values.now) result
            ≡ params_in (shape_of self.now).actions action }
    {
        params_in(&self.actions, action)
    }
}

/// Whether some key is matched under a mask.
fn has_ternary(keys: &[KeyShape]) -> bool
    ensures { result ≡ has_ternary keys.now }
{
    for k in keys {
        match k.kind {
            KeyKind::Ternary => return true,
            KeyKind::Exact | KeyKind::Lpm => {}
        }
    }
    false
}

/// Whether the action of a number is one of these.
pub fn has_action(actions: &[ActionShape], number: u32) -> bool
    ensures { result ≡ has_action (map action_shape_of actions.now) number }
{
    for a in actions {
        if a.number == number {
            return true;
        }
    }
    false
}

/// What the parameters of the action of a number hold, where it is one of these.
fn params_in(actions: &[ActionShape], number: u32) -> Option<&[ValueShape]>
    ensures { option_map (λ values. values.now) result
        ≡ params_in (map action_shape_of actions.now) number }
{
    for a in actions {
        if a.number == number {
            return Some(&a.params);
        }
    }
    None
}

/// Whether words have the widths of these values, one by one.
fn have_widths(values: &[ValueShape], words: &[Bits]) -> bool
    ensures { result ≡ have_widths values.now words.now }
{
    for i in 0..values.len() {
        if i >= words.len() {
            return false;
        }
        if words[i].width() != values[i].width {
            return false;
        }
    }
    if values.len() < words.len() {
        return false;
    }
    true
}

/// Whether the action of a number is one of these, and takes these words.
pub fn takes(actions: &[ActionShape], number: u32, args: &[Bits]) -> bool
    ensures { result ≡ takes (map action_shape_of actions.now) number args.now }
{
    for a in actions {
        if a.number == number {
            return have_widths(&a.params, args);
        }
    }
    false
}

/// Equal words.
pub fn copy_words(alloc: Global, list: &[Bits]) -> Result<Vec<Bits>, AllocError>
    ensures { IfOk result (λ v. v.items ≡ list.now) }
{
    let mut copies = Vec::new(alloc);
    for w in list {
        copies.push(*w)?;
    }
    Ok(copies)
}

/// Equal values.
pub fn copy_values(alloc: Global, list: &[ValueShape]) -> Result<Vec<ValueShape>, AllocError>
    ensures { IfOk result (λ v. v.items ≡ list.now) }
{
    let mut copies = Vec::new(alloc);
    for v in list {
        copies.push(*v)?;
    }
    Ok(copies)
}

fn copy_keys(alloc: Global, list: &[KeyShape]) -> Result<Vec<KeyShape>, AllocError>
    ensures { IfOk result (λ v. v.items ≡ list.now) }
{
    let mut copies = Vec::new(alloc);
    for k in list {
        copies.push(*k)?;
    }
    Ok(copies)
}

fn copy_action(alloc: Global, a: &ActionShape) -> Result<ActionShape, AllocError>
    ensures { IfOk result (λ b. action_shape_of b ≡ action_shape_of a.now) }
{
    let params = copy_values(alloc, &a.params)?;
    Ok(ActionShape {
        number: a.number,
        params,
    })
}

fn copy_actions(alloc: Global, list: &[ActionShape]) -> Result<Vec<ActionShape>, AllocError>
    ensures { IfOk result (λ v. map action_shape_of v.items ≡ map action_shape_of list.now) }
{
    let mut copies = Vec::new(alloc);
    for a in list {
        copies.push(copy_action(alloc, a)?)?;
    }
    Ok(copies)
}

/// An equal shape.
pub fn copy_shape(alloc: Global, s: &Shape) -> Result<Shape, AllocError>
    ensures { IfOk result (λ t. shape_of t ≡ shape_of s.now) }
{
    let keys = copy_keys(alloc, &s.keys)?;
    let actions = copy_actions(alloc, &s.actions)?;
    let written_args = copy_words(alloc, &s.written_args)?;
    Ok(Shape {
        keys,
        actions,
        written: s.written,
        written_args,
        fixed: s.fixed,
    })
}
