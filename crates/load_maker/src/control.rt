//! The value of the file of contents of control variables.

ghost use Rattle.std.specs.Prelude.{◌≡◌, IfOk};
ghost use Rattle.load_maker.specs.Values as values;
ghost use Rattle.serde_json.specs.View.{view};

use crate::fabric::{LEAVES, leaf_name};
use serde_json::{Map, Value, json, put};
use std::alloc::{AllocError, Global};

#[tactic(auto, using(crate::proofs::MoreNumbers::put_none, crate::proofs::MoreNumbers::put_more), unfolding(crate::specs::Values::control_data))]
/// The contents of all leaves.
pub fn control_value(alloc: Global) -> Result<Value, AllocError>
    ensures { IfOk result (λ v. view v ≡ values.control_data) }
{
    let mut switches = Map::new(alloc);
    for leaf in 0..LEAVES {
        let name = leaf_name(alloc, leaf)?;
        put(&mut switches, alloc, name.as_str(), leaf_contents(alloc)?)?;
    }
    Ok(Value::Object(switches))
}

/// The ports of a leaf, with their tenants.
fn leaf_contents(alloc: Global) -> Result<Value, AllocError>
    ensures { IfOk result (λ v. view v ≡ values.leaf_contents) }
{
    let mut tenants = Vec::new(alloc);
    tenants.push(tenant(alloc, 1, 1)?)?;
    tenants.push(tenant(alloc, 2, 1)?)?;
    tenants.push(tenant(alloc, 3, 2)?)?;
    tenants.push(tenant(alloc, 4, 2)?)?;
    json!(in alloc; {"tenants": tenants})
}

fn tenant(alloc: Global, port: u8, tenant: u8) -> Result<Value, AllocError>
    ensures { IfOk result (λ v. view v ≡ values.tenant port tenant) }
{
    json!(in alloc; [port, tenant])
}
