//! The value of the network file.

ghost use Rattle.std.specs.Prelude.{◌≡◌, ◌++◌, ◌<◌, map, IfOk, OnOk};
ghost use Rattle.load_maker.specs.Numbers.{numbers};
ghost use Rattle.load_maker.specs.Fabric as fabric;
ghost use Rattle.load_maker.specs.Values as values;
ghost use Rattle.serde_json.specs.Data.{string};
ghost use Rattle.serde_json.specs.View.{view};

use crate::fabric::{LEAVES, SPINES, leaf_name, port_to_leaf, port_to_spine, spine_name};
use serde_json::{Value, json};
use std::alloc::{AllocError, Global};

/// The network: its switches, and the links between each leaf and each spine.
#[tactic(auto, unfolding(crate::specs::Values::network_data))]
pub fn network_value(alloc: Global) -> Result<Value, AllocError>
    ensures { IfOk result (λ v. view v ≡ values.network_data) }
{
    let links = links(alloc)?;
    let switches = switches(alloc)?;
    json!(in alloc; {"links": links, "switches": switches})
}

/// The link between a leaf and a spine.
fn link(alloc: Global, leaf: u8, spine: u8) -> Result<Value, AllocError>
    requires leaf { leaf < 4 }
    requires spine { spine < 2 }
    ensures { IfOk result (λ v. view v ≡ values.link leaf spine) }
{
    let from = leaf_name(alloc, leaf)?;
    let to = spine_name(alloc, spine)?;
    json!(in alloc; [from, port_to_spine(spine), to, port_to_leaf(leaf)])
}

/// Those of a leaf, behind others.
fn put_links(alloc: Global, links: &mut Vec<Value>, leaf: u8) -> Result<(), AllocError>
    requires { leaf < 4 }
    ensures { OnOk result (map view links.new.items
        ≡ map view links.old.items ++ map (values.link leaf) (numbers 2)) }
{
    for spine in 0..SPINES {
        links.push(link(alloc, leaf, spine)?)?;
    }
    Ok(())
}

#[tactic(auto, unfolding(crate::specs::Values::links))]
fn links(alloc: Global) -> Result<Vec<Value>, AllocError>
    ensures { IfOk result (λ v. map view v.items ≡ values.links) }
{
    let mut links = Vec::new(alloc);
    for leaf in 0..LEAVES {
        put_links(alloc, &mut links, leaf)?;
    }
    Ok(links)
}

/// The names of the leaves, and then of the spines.
#[tactic(auto, unfolding(crate::specs::Values::switches))]
fn switches(alloc: Global) -> Result<Vec<Value>, AllocError>
    ensures { IfOk result (λ v. map view v.items ≡ values.switches) }
{
    let mut names = Vec::new(alloc);
    for leaf in 0..LEAVES {
        names.push(leaf_value(alloc, leaf)?)?;
    }
    for spine in 0..SPINES {
        names.push(spine_value(alloc, spine)?)?;
    }
    Ok(names)
}

fn leaf_value(alloc: Global, leaf: u8) -> Result<Value, AllocError>
    ensures { IfOk result (λ v. view v ≡ string (fabric.leaf_name leaf)) }
{
    Ok(Value::String(leaf_name(alloc, leaf)?))
}

fn spine_value(alloc: Global, spine: u8) -> Result<Value, AllocError>
    ensures { IfOk result (λ v. view v ≡ string (fabric.spine_name spine)) }
{
    Ok(Value::String(spine_name(alloc, spine)?))
}
