//! The ports of links, and how many switches there are.

ghost use Rattle.std.specs.Prelude.{◌≡◌, ◌++◌, [], IfOk, not, true, map, length};
ghost use Rattle.json_parts.specs.Views.{owned};
ghost use Rattle.network_file.specs.Network as network;
ghost use Rattle.network_file.specs.Ends.{ends_of, both_ends};
ghost use Rattle.network_file.specs.Views.{Gives, numbered_view, numbered_views};

use crate::fault::NetworkFault;
use crate::numbered::NumberedLink;
use indexmap::{IndexMap, IndexSet};
use json_parts::item_path;
use std::alloc::{AllocError, Global};

/// A port of a switch.
pub(crate) type Port = (usize, u64);

/// For each port that has a link, the port at the other end.
pub(crate) type Ends = IndexMap<Port, Port>;

/// The greatest port.
const LAST_PORT: u64 = 510;

/// The greatest number of switches.
const MOST_SWITCHES: usize = 256;

// Puts both ends of the link, and answers whether neither was there.
fn put(ends: &mut Ends, link: &NumberedLink) -> Result<bool, AllocError>
    ensures answer { IfOk result (λ b. b ≡ not (network.is_taken
        (map (λ e. e.0) ends.old.entries) (numbered_view link.now))) }
    ensures put { IfOk result (λ b. b ≡ true
        → ends.new.entries ≡ ends.old.entries ++ both_ends (numbered_view link.now)) }
{
    let one = (link.one, link.one_port);
    let other = (link.other, link.other_port);
    if ends.insert(one, other)?.is_some() {
        return Ok(false);
    }
    let before = ends.insert(other, one)?;
    Ok(before.is_none())
}

/// The ends of the links, each port once.
pub(crate) fn ends(alloc: Global, links: &[NumberedLink]) -> Result<Ends, NetworkFault>
    ensures free { Gives (λ ends. map (λ e. e.0) ends.entries) result
        (network.free (numbered_views links.now)) }
    ensures ends { IfOk result (λ ends. ends.entries ≡ ends_of (numbered_views links.now)) }
{
    let mut ends = IndexMap::new(alloc);
    for (i, link) in links.iter().enumerate() {
        if !put(&mut ends, link)? {
            let path = item_path(alloc, "/links", i)?;
            return Err(NetworkFault::PortTwice { path });
        }
    }
    Ok(ends)
}

fn is_high(link: &NumberedLink) -> bool
    ensures { result ≡ network.is_high (numbered_view link.now) }
{
    link.one_port > LAST_PORT || link.other_port > LAST_PORT
}

/// Each port is in range.
pub(crate) fn ports_in_range(alloc: Global, links: &[NumberedLink]) -> Result<(), NetworkFault>
    ensures { Gives (λ u. u) result (network.in_range (numbered_views links.now)) }
{
    for (i, link) in links.iter().enumerate() {
        if is_high(link) {
            let path = item_path(alloc, "/links", i)?;
            return Err(NetworkFault::BadPort { path });
        }
    }
    Ok(())
}

/// There are 1 to 256 switches.
pub(crate) fn sized(table: &IndexSet<String>) -> Result<(), NetworkFault>
    ensures { Gives (λ u. u) result (network.sized (owned table.now.keys)) }
{
    if table.is_empty() || table.len() > MOST_SWITCHES {
        return Err(NetworkFault::Limit);
    }
    Ok(())
}
