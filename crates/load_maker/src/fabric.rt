//! The switches and the hosts, with their names, their addresses and the routes to them.

ghost use Rattle.std.specs.Prelude.{◌≡◌, ◌<◌, ◌≤◌, IfOk, string_bytes};
ghost use Rattle.load_maker.specs.Fabric as fabric;

use std::alloc::{AllocError, Global};

/// How many leaves there are, each with as many hosts.
pub const LEAVES: u8 = 4;

pub const SPINES: u8 = 2;

pub const HOSTS: u8 = 16;

/// An IPv4 address: 10.0, the number of a leaf, and a last number.
#[derive(Clone, Copy, Debug)]
pub struct Address {
    pub leaf: u8,
    pub last: u8,
}

/// A hardware address: 02:00:00:00, and these two bytes.
#[derive(Clone, Copy, Debug)]
pub struct Hardware {
    pub high: u8,
    pub low: u8,
}

/// A host, the leaf at which it is, and by which port.
#[derive(Clone, Copy, Debug)]
pub struct Host {
    pub number: u8,
    pub leaf: u8,
    pub port: u8,
    pub address: Address,
    pub hardware: Hardware,
}

/// What an entry says: frames to addresses with this front leave by a port, to this hardware address.
#[derive(Clone, Copy, Debug)]
pub struct Route {
    pub address: Address,
    pub length: u8,
    pub hardware: Hardware,
    pub port: u8,
}

/// The host of a number.
pub fn host_at(number: u8) -> Host
    requires { number < 16 }
    ensures { result ≡ fabric.host_at number }
{
    let leaf = number / LEAVES;
    let port = 1 + number % LEAVES;
    Host {
        number,
        leaf,
        port,
        address: Address { leaf, last: port },
        hardware: Hardware {
            high: 0,
            low: 1 + number,
        },
    }
}

/// The port of a leaf that leads to a spine.
pub fn port_to_spine(spine: u8) -> u8
    requires { spine < 2 }
    ensures { result ≡ fabric.port_to_spine spine }
{
    11 + spine
}

/// The port of a spine that leads to a leaf.
pub fn port_to_leaf(leaf: u8) -> u8
    requires { leaf < 4 }
    ensures { result ≡ fabric.port_to_leaf leaf }
{
    1 + leaf
}

/// The route to a host, at its own leaf.
pub fn host_route(host: Host) -> Route
    ensures { result ≡ fabric.host_route host }
{
    Route {
        address: host.address,
        length: 32,
        hardware: host.hardware,
        port: host.port,
    }
}

/// The route to all hosts of a leaf, at another switch.
pub fn leaf_route(leaf: u8, port: u8) -> Route
    ensures { result ≡ fabric.leaf_route leaf port }
{
    Route {
        address: Address { leaf, last: 0 },
        length: 24,
        hardware: Hardware { high: 1, low: 0 },
        port,
    }
}

pub fn leaf_name(alloc: Global, leaf: u8) -> Result<String, AllocError>
    ensures { IfOk result (λ s. string_bytes s ≡ fabric.leaf_name leaf) }
{
    format!(in alloc; "l{leaf}")
}

pub fn spine_name(alloc: Global, spine: u8) -> Result<String, AllocError>
    ensures { IfOk result (λ s. string_bytes s ≡ fabric.spine_name spine) }
{
    format!(in alloc; "p{spine}")
}

pub fn address_text(alloc: Global, address: Address) -> Result<String, AllocError>
    ensures { IfOk result (λ s. string_bytes s ≡ fabric.address_text address) }
{
    let Address { leaf, last } = address;
    format!(in alloc; "10.0.{leaf}.{last}")
}

#[tactic(auto, using(std::proofs::lemmas::Fmt::hex_byte))]
pub fn hardware_text(alloc: Global, hardware: Hardware) -> Result<String, AllocError>
    ensures { IfOk result (λ s. string_bytes s ≡ fabric.hardware_text hardware) }
{
    let Hardware { high, low } = hardware;
    format!(in alloc; "02:00:00:00:{high:02x}:{low:02x}")
}
