//! Reading tables.

ghost use Rattle.std.specs.Prelude.{◌≡◌, ℕ, List, map, is_some};
ghost use Rattle.lex_words.specs.Moving.{Moves, Stays};
ghost use Rattle.p4_tree.specs.Tree.{Expr as ExprTree};
ghost use Rattle.p4_tree.specs.View.{default_of, expr_of, key_of, table_of};
ghost use Rattle.p4_decls.specs.Repeating.{each_at, some_at};
ghost use Rattle.p4_decls.specs.Parsing.{closes_brace};
ghost use Rattle.std.specs.Option.{option_map};
ghost use Rattle.p4_decls.specs.Tables.{action_end_at, action_name_at, actions_prop_at, arguments_at, default_at, default_prop_at, fixed_prop_at, items_or_none, key_at, keys_prop_at, named_prop_at, no_props, prop_at, props_at, size_prop_at, table_actions_at, table_at, table_keys_at, table_size_at};
ghost use Rattle.p4_decls.specs.Found.{props_of};

use crate::found::FoundProps;
use crate::items::{Item, Items, each, some};
use crate::parser::Values;
use lex_text::Name;
use lex_words::{Cursor, Halt, Key};
use p4_expressions::expr;
use p4_tree::{Expr, Table};
use std::alloc::Global;

/// A key and the name of its kind.
#[tactic(auto, unfolding(crate::specs::Tables::key_at))]
fn key(alloc: Global, tokens: &mut Cursor) -> Result<(Expr, Name), Halt>
    ensures { Moves key_of (λ ws n. key_at ws n 256 251) tokens.old result tokens.new }
{
    let value = expr(alloc, tokens, 11, 251, 256)?;
    tokens.expect(Key::Colon)?;
    let kind = tokens.name(alloc)?;
    tokens.expect(Key::Semicolon)?;
    Ok((value.tree, kind))
}

/// The keys of a table.
struct TableKeys;

impl Item for TableKeys {
    type Found = (Expr, Name);

    ghost Tree = { ExprTree × List ℕ };

    ghost view = { key_of };

    ghost reader = { λ ws n. key_at ws n 256 251 };

    fn read(alloc: Global, tokens: &mut Cursor) -> Result<(Expr, Name), Halt> {
        key(alloc, tokens)
    }
}

impl Items for TableKeys {
    ghost stop = { closes_brace };

    fn end(tokens: &Cursor) -> bool {
        tokens.is(Key::BraceClose)
    }
}

/// The keys, behind `key`.
#[tactic(auto, unfolding(crate::specs::Tables::table_keys_at))]
fn table_keys(alloc: Global, tokens: &mut Cursor) -> Result<Vec<(Expr, Name)>, Halt>
    ensures { Moves (λ x. map key_of x.items) (λ ws n. table_keys_at ws n 256 251) tokens.old result tokens.new }
{
    tokens.expect(Key::Assign)?;
    tokens.expect(Key::BraceOpen)?;
    let keys = each::<TableKeys>(alloc, tokens)?;
    tokens.expect(Key::BraceClose)?;
    Ok(keys)
}

/// The size, behind `size`.
#[tactic(auto, unfolding(crate::specs::Tables::table_size_at))]
fn table_size(tokens: &mut Cursor) -> Result<u128, Halt>
    ensures { Moves (λ x. x) (λ ws n. table_size_at ws n 256 251) tokens.old result tokens.new }
{
    tokens.expect(Key::Assign)?;
    let size = tokens.number()?;
    tokens.expect(Key::Semicolon)?;
    Ok(size.value)
}

/// What stands behind the name of an action in a table's list.
#[tactic(auto, unfolding(crate::specs::Tables::action_end_at))]
fn action_end(tokens: &mut Cursor, name: Name) -> Result<Name, Halt>
    ensures { Moves (λ x. x) (λ ws n. action_end_at ws n 256 251 name) tokens.old result tokens.new }
{
    if tokens.eat(Key::Open) {
        tokens.expect(Key::Close)?;
        tokens.expect(Key::Semicolon)?;
        Ok(name)
    } else {
        tokens.expect(Key::Semicolon)?;
        Ok(name)
    }
}

/// The name of an action, perhaps with brackets.
#[tactic(auto, unfolding(crate::specs::Tables::action_name_at))]
fn action_name(alloc: Global, tokens: &mut Cursor) -> Result<Name, Halt>
    ensures { Moves (λ x. x) (λ ws n. action_name_at ws n 256 251) tokens.old result tokens.new }
{
    let name = tokens.name(alloc)?;
    action_end(tokens, name)
}

/// The actions of a table.
struct ActionNames;

impl Item for ActionNames {
    type Found = Name;

    ghost Tree = { List ℕ };

    ghost view = { λ x. x };

    ghost reader = { λ ws n. action_name_at ws n 256 251 };

    fn read(alloc: Global, tokens: &mut Cursor) -> Result<Name, Halt> {
        action_name(alloc, tokens)
    }
}

impl Items for ActionNames {
    ghost stop = { closes_brace };

    fn end(tokens: &Cursor) -> bool {
        tokens.is(Key::BraceClose)
    }
}

/// The actions, behind `actions`.
#[tactic(auto, unfolding(crate::specs::Tables::table_actions_at), using(crate::proofs::Lists::same_maps))]
fn table_actions(alloc: Global, tokens: &mut Cursor) -> Result<Vec<Name>, Halt>
    ensures { Moves (λ x. x.items) (λ ws n. table_actions_at ws n 256 251) tokens.old result tokens.new }
{
    tokens.expect(Key::Assign)?;
    tokens.expect(Key::BraceOpen)?;
    let names = each::<ActionNames>(alloc, tokens)?;
    tokens.expect(Key::BraceClose)?;
    Ok(names)
}

/// The arguments of a default action, where there are brackets.
#[tactic(auto, unfolding(crate::specs::Tables::arguments_at))]
fn arguments(alloc: Global, tokens: &mut Cursor) -> Result<Vec<Expr>, Halt>
    ensures { Stays (λ x. map expr_of x.items) (λ ws n. arguments_at ws n 256 251) tokens.old result tokens.new }
{
    if tokens.eat(Key::Open) {
        let values = some::<Values>(alloc, tokens)?;
        tokens.expect(Key::Close)?;
        Ok(values)
    } else {
        Ok(Vec::new(alloc))
    }
}

/// The default action, behind `default_action`.
#[tactic(auto, unfolding(crate::specs::Tables::default_at))]
fn default_action(alloc: Global, tokens: &mut Cursor) -> Result<(Name, Vec<Expr>), Halt>
    ensures { Moves default_of (λ ws n. default_at ws n 256 251) tokens.old result tokens.new }
{
    tokens.expect(Key::Assign)?;
    let name = tokens.name(alloc)?;
    let values = arguments(alloc, tokens)?;
    tokens.expect(Key::Semicolon)?;
    Ok((name, values))
}

/// The keys behind their name, which stands at `start`, with what was read before.
#[tactic(auto, unfolding(crate::specs::Tables::keys_prop_at))]
fn keys_prop(
    alloc: Global,
    tokens: &mut Cursor,
    before: FoundProps,
    start: u32,
) -> Result<FoundProps, Halt>
    ensures { Moves props_of (λ ws n. keys_prop_at ws n 256 251 (props_of before) start) tokens.old result tokens.new }
{
    if before.keys.is_some() {
        return Err(Halt::Wrong(start));
    }
    let found = table_keys(alloc, tokens)?;
    let mut props = before;
    props.keys = Some(found);
    Ok(props)
}

/// The size, in the same way.
#[tactic(auto, unfolding(crate::specs::Tables::size_prop_at))]
fn size_prop(tokens: &mut Cursor, before: FoundProps, start: u32) -> Result<FoundProps, Halt>
    ensures { Moves props_of (λ ws n. size_prop_at ws n 256 251 (props_of before) start) tokens.old result tokens.new }
{
    if before.size.is_some() {
        return Err(Halt::Wrong(start));
    }
    let found = table_size(tokens)?;
    let mut props = before;
    props.size = Some(found);
    Ok(props)
}

/// The actions, in the same way.
#[tactic(auto, unfolding(crate::specs::Tables::actions_prop_at))]
fn actions_prop(
    alloc: Global,
    tokens: &mut Cursor,
    before: FoundProps,
    start: u32,
) -> Result<FoundProps, Halt>
    ensures { Moves props_of (λ ws n. actions_prop_at ws n 256 251 (props_of before) start) tokens.old result tokens.new }
{
    if before.actions.is_some() {
        return Err(Halt::Wrong(start));
    }
    let found = table_actions(alloc, tokens)?;
    let mut props = before;
    props.actions = Some(found);
    Ok(props)
}

/// The default action, in the same way.
#[tactic(auto, unfolding(crate::specs::Tables::default_prop_at))]
fn default_prop(
    alloc: Global,
    tokens: &mut Cursor,
    before: FoundProps,
    start: u32,
) -> Result<FoundProps, Halt>
    ensures { Moves props_of (λ ws n. default_prop_at ws n 256 251 (props_of before) start) tokens.old result tokens.new }
{
    if before.default.is_some() {
        return Err(Halt::Wrong(start));
    }
    let found = default_action(alloc, tokens)?;
    let mut props = before;
    props.default = Some(found);
    props.fixed = false;
    Ok(props)
}

/// The default action behind `const`, with what was read before.
#[tactic(auto, unfolding(crate::specs::Tables::fixed_prop_at))]
fn fixed_prop(alloc: Global, tokens: &mut Cursor, before: FoundProps) -> Result<FoundProps, Halt>
    ensures { Moves props_of (λ ws n. fixed_prop_at ws n 256 251 (props_of before)) tokens.old result tokens.new }
{
    if before.default.is_some() {
        return Err(Halt::Wrong(tokens.at()));
    }
    tokens.expect(Key::Const)?;
    tokens.expect_name(b"default_action")?;
    let found = default_action(alloc, tokens)?;
    let mut props = before;
    props.default = Some(found);
    props.fixed = true;
    Ok(props)
}

/// A property behind its name, which stands at `start`, with what was read before.
#[tactic(auto, unfolding(crate::specs::Tables::named_prop_at))]
fn named_prop(
    alloc: Global,
    tokens: &mut Cursor,
    before: FoundProps,
    start: u32,
    name: Name,
) -> Result<FoundProps, Halt>
    ensures { Moves props_of (λ ws n. named_prop_at ws n 256 251 (props_of before) start name) tokens.old result tokens.new }
{
    if name.as_str() == "key" {
        keys_prop(alloc, tokens, before, start)
    } else if name.as_str() == "size" {
        size_prop(tokens, before, start)
    } else if name.as_str() == "actions" {
        actions_prop(alloc, tokens, before, start)
    } else if name.as_str() == "default_action" {
        default_prop(alloc, tokens, before, start)
    } else {
        Err(Halt::Wrong(start))
    }
}

/// A property, with what was read before.
#[tactic(auto, unfolding(crate::specs::Tables::prop_at))]
fn property(alloc: Global, tokens: &mut Cursor, before: FoundProps) -> Result<FoundProps, Halt>
    ensures { Moves props_of (λ ws n. prop_at ws n 256 251 (props_of before)) tokens.old result tokens.new }
{
    if tokens.is(Key::Const) {
        fixed_prop(alloc, tokens, before)
    } else {
        let at = tokens.at();
        let name = tokens.name(alloc)?;
        named_prop(alloc, tokens, before, at, name)
    }
}

/// The properties of a table.
fn properties(alloc: Global, tokens: &mut Cursor) -> Result<FoundProps, Halt>
    ensures { Stays props_of (λ ws n. props_at ws n 256 251 n no_props) tokens.old result tokens.new }
{
    let mut props = FoundProps {
        keys: None,
        size: None,
        actions: None,
        default: None,
        fixed: false,
    };
    'items: while !tokens.is(Key::BraceClose) {
        props = property(alloc, tokens, props)?;
    }
    Ok(props)
}

/// The items, or none.
fn or_none<T: Drop>(alloc: Global, found: Option<Vec<T>>) -> Vec<T>
    ensures { result.items ≡ items_or_none (option_map (λ x. x.items) found) }
{
    match found {
        Some(items) => items,
        None => Vec::new(alloc),
    }
}

/// A table.
#[tactic(auto, unfolding(crate::specs::Tables::table_at))]
pub fn table(alloc: Global, tokens: &mut Cursor) -> Result<Table, Halt>
    ensures { Moves table_of (λ ws n. table_at ws n 256 251) tokens.old result tokens.new }
{
    let at = tokens.at();
    tokens.expect(Key::Table)?;
    let name = tokens.name(alloc)?;
    tokens.expect(Key::BraceOpen)?;
    let props = properties(alloc, tokens)?;
    tokens.expect(Key::BraceClose)?;
    Ok(Table {
        at,
        name,
        keys: or_none(alloc, props.keys),
        actions: or_none(alloc, props.actions),
        default: props.default,
        fixed: props.fixed,
        size: props.size,
    })
}
