//! The value of the file of entries.

ghost use Rattle.std.specs.Prelude.{◌≡◌, ◌++◌, ◌*◌, ◌+◌, ◌%◌, ◌<◌, map, IfOk, OnOk};
ghost use Rattle.load_maker.specs.Numbers.{numbers};
ghost use Rattle.load_maker.specs.Fabric as fabric;
ghost use Rattle.load_maker.specs.Values as values;
ghost use Rattle.serde_json.specs.View.{view, members_view};

use crate::fabric::{
    LEAVES, Route, SPINES, address_text, hardware_text, host_at, host_route, leaf_name, leaf_route,
    port_to_leaf, port_to_spine, spine_name,
};
use serde_json::{Map, Value, json, put};
use std::alloc::{AllocError, Global};

/// The entries of all switches.
#[tactic(auto, unfolding(crate::specs::Values::entries_data))]
pub fn entries_value(alloc: Global) -> Result<Value, AllocError>
    ensures { IfOk result (λ v. view v ≡ values.entries_data) }
{
    let mut switches = Map::new(alloc);
    put_leaves(alloc, &mut switches)?;
    put_spines(alloc, &mut switches)?;
    Ok(Value::Object(switches))
}

#[tactic(auto, using(crate::proofs::MoreNumbers::put_none, crate::proofs::MoreNumbers::put_more))]
fn put_leaves(alloc: Global, switches: &mut Map<String, Value>) -> Result<(), AllocError>
    ensures { OnOk result (members_view switches.new.entries
        ≡ values.put_all fabric.leaf_name (λ i. values.tables (values.leaf_entries i)) 4 (members_view switches.old.entries)) }
{
    for leaf in 0..LEAVES {
        let name = leaf_name(alloc, leaf)?;
        let tables = tables(alloc, leaf_entries(alloc, leaf)?)?;
        put(switches, alloc, name.as_str(), tables)?;
    }
    Ok(())
}

#[tactic(auto, using(crate::proofs::MoreNumbers::put_none, crate::proofs::MoreNumbers::put_more))]
fn put_spines(alloc: Global, switches: &mut Map<String, Value>) -> Result<(), AllocError>
    ensures { OnOk result (members_view switches.new.entries
        ≡ values.put_all fabric.spine_name (λ _. values.tables values.spine_entries) 2 (members_view switches.old.entries)) }
{
    for spine in 0..SPINES {
        let name = spine_name(alloc, spine)?;
        let tables = tables(alloc, spine_entries(alloc)?)?;
        put(switches, alloc, name.as_str(), tables)?;
    }
    Ok(())
}

/// The one table of a switch, with its entries.
fn tables(alloc: Global, entries: Vec<Value>) -> Result<Value, AllocError>
    ensures { IfOk result (λ v. view v ≡ values.tables (map view entries.items)) }
{
    let table = json!(in alloc; {"entries": entries})?;
    json!(in alloc; {"MyIngress.ipv4_lpm": table})
}

/// The entries of a leaf: its own hosts, and then the other leaves.
#[tactic(auto, unfolding(crate::specs::Values::leaf_entries))]
fn leaf_entries(alloc: Global, leaf: u8) -> Result<Vec<Value>, AllocError>
    requires { leaf < 4 }
    ensures { IfOk result (λ v. map view v.items ≡ values.leaf_entries leaf) }
{
    let mut entries = own_entries(alloc, leaf)?;
    for other in 0..LEAVES {
        if other != leaf {
            let route = leaf_route(other, port_to_spine(other % SPINES));
            entries.push(entry(alloc, route)?)?;
        }
    }
    Ok(entries)
}

/// Those of the hosts of a leaf.
fn own_entries(alloc: Global, leaf: u8) -> Result<Vec<Value>, AllocError>
    requires { leaf < 4 }
    ensures { IfOk result (λ v. map view v.items ≡ map (λ m. values.route_entry (fabric.host_route (fabric.host_at (4 * leaf + m)))) (numbers 4)) }
{
    let mut entries = Vec::new(alloc);
    for place in 0..LEAVES {
        let route = host_route(host_at(LEAVES * leaf + place));
        entries.push(entry(alloc, route)?)?;
    }
    Ok(entries)
}

/// The entries of a spine.
#[tactic(auto, unfolding(crate::specs::Values::spine_entries))]
fn spine_entries(alloc: Global) -> Result<Vec<Value>, AllocError>
    ensures { IfOk result (λ v. map view v.items ≡ values.spine_entries) }
{
    let mut entries = Vec::new(alloc);
    for leaf in 0..LEAVES {
        let route = leaf_route(leaf, port_to_leaf(leaf));
        entries.push(entry(alloc, route)?)?;
    }
    Ok(entries)
}

/// A route as an entry.
fn entry(alloc: Global, route: Route) -> Result<Value, AllocError>
    ensures { IfOk result (λ v. view v ≡ values.route_entry route) }
{
    let args = args(alloc, route)?;
    let key = key(alloc, route)?;
    json!(in alloc; {"action": "ipv4_forward", "args": args, "key": key})
}

fn args(alloc: Global, route: Route) -> Result<Value, AllocError>
    ensures { IfOk result (λ v. view v ≡ values.route_args route) }
{
    let hardware = hardware_text(alloc, route.hardware)?;
    json!(in alloc; [hardware, route.port])
}

fn key(alloc: Global, route: Route) -> Result<Value, AllocError>
    ensures { IfOk result (λ v. view v ≡ values.route_key route) }
{
    let address = address_text(alloc, route.address)?;
    json!(in alloc; [[address, route.length]])
}
