//! A network.

ghost use Rattle.std.specs.Prelude.{◌≡◌, ◌≢◌, ◌↔◌, ◌<◌, ◌≤◌, length, slice_get, IfOk, Some, IsNone, All, AllPairs};
ghost use Rattle.serde_json.specs.View.{view};
ghost use Rattle.network_run.specs.Network.{far_end, IsWiring};
ghost use Rattle.network_file.specs.Network as network;
ghost use Rattle.network_file.specs.Views.{Gives};
ghost use Rattle.network_file.specs.Wiring.{linked_ports, wiring_of, IsUnlinked};

use crate::checks::{Ends, ends, ports_in_range, sized};
use crate::fault::NetworkFault;
use crate::named::named_file;
use crate::numbered::{all_numbered, different};
use indexmap::IndexSet;
use serde_json::Value;
use std::alloc::{AllocError, Global};
use std::marker::Model;

/// The names of switches, in their order, and the ends of the links between them.
#[derive(Drop)]
struct Tables {
    names: IndexSet<String>,
    ends: Ends,
}

/// The switches of a network and the links between them. Contracts see it as the names of the
/// switches, in their order, and the links.
pub struct Network {
    tables: Box<Tables>,
}

impl Drop for Network {
    fn drop(self) {
        let Network { tables: _tables } = self;
    }
}

impl Model for Network {
    ghost use Rattle.json_parts.specs.Views.{owned};
    ghost use Rattle.network_file.specs.Network as network;
    ghost use Rattle.network_file.specs.Ends.{links_in, IsNetwork};

    ghost Value = { network.Network };

    ghost view = { λ n. record { names = owned n.tables.value.names.keys; links = links_in n.tables.value.ends.entries } };

    ghost invariant = { λ n. IsNetwork (owned n.tables.value.names.keys) n.tables.value.ends.entries };
}

/// The network that a value says.
///
/// # Errors
///
/// The value's fault, exactly where it has one; else `NoMemory` alone, where memory runs out.
#[tactic(auto, unfolding(crate::specs::Network::network_of))]
pub fn read_network(alloc: Global, value: &Value) -> Result<Network, NetworkFault>
    ensures { Gives (λ n. n) result (network.network_of (view value.now)) }
{
    let file = named_file(alloc, value)?;
    let names = different(alloc, &file.switches)?;
    let links = all_numbered(alloc, &names, &file.links)?;
    let ends = ends(alloc, &links)?;
    ports_in_range(alloc, &links)?;
    sized(&names)?;
    Ok(Network {
        tables: Box::new(alloc, Tables { names, ends })?,
    })
}

impl Network {
    /// The number of switches.
    pub fn count(&self) -> u16
        ensures count { result ≡ length self.now.names }
        ensures in_range { (0 < result) × (result ≤ 256) }
        ensures different { AllPairs (λ one other. one ≢ other) self.now.names }

        // The links join ports of these switches.
        ensures wiring { IsWiring (wiring_of self.now) }
    {
        self.tables.names.len() as u16
    }

    /// The name of a switch.
    pub fn name(&self, switch: u16) -> &str
        requires { switch < length self.now.names }
        ensures { slice_get self.now.names switch ≡ Some result.now }
    {
        self.tables.names[switch as usize].as_str()
    }

    /// The number of the switch with this name.
    pub fn number(&self, name: &str) -> Option<u16>
        ensures number { result ≡ network.number_of self.now.names name.now }
        ensures none { IsNone result ↔ All (λ known. known ≢ name.now) self.now.names }
    {
        match self.tables.names.get_index_of(name) {
            Some(number) => Some(number as u16),
            None => None,
        }
    }

    /// The switch and the port at the other end of the link at a port, or `None` for an edge port.
    pub fn next(&self, switch: u16, port: u16) -> Option<(u16, u16)>
        ensures next { result ≡ far_end (wiring_of self.now) switch port }
        ensures edge { IsNone result ↔ IsUnlinked self.now switch port }
    {
        match self.tables.ends.get(&(switch as usize, port as u64)) {
            Some(&(far, far_port)) => Some((far as u16, far_port as u16)),
            None => None,
        }
    }

    /// The ports of a switch that have a link, in the order of the links.
    pub fn linked_ports(&self, alloc: Global, switch: u16) -> Result<Vec<u16>, AllocError>
        ensures { IfOk result (λ v. v.items ≡ linked_ports self.now.links switch) }
    {
        let mut ports = Vec::new(alloc);
        for (end, _far) in self.tables.ends.iter() {
            if end.0 == switch as usize {
                ports.push(end.1 as u16)?;
            }
        }
        Ok(ports)
    }
}
