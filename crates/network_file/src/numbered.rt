//! Switches by their numbers, and links between them.

ghost use Rattle.std.specs.Prelude.{◌≡◌, [], option_map};
ghost use Rattle.json_parts.specs.Views.{owned, texts};
ghost use Rattle.network_file.specs.Network as network;
ghost use Rattle.network_file.specs.Views.{Gives, link_view, link_views, numbered_view, numbered_views};

use crate::fault::NetworkFault;
use crate::named::NamedLink;
use indexmap::IndexSet;
use json_parts::item_path;
use std::alloc::Global;

/// A link: the numbers of its switches, each with a port.
#[derive(Clone, Copy, Debug)]
pub(crate) struct NumberedLink {
    pub one: usize,
    pub one_port: u64,
    pub other: usize,
    pub other_port: u64,
}

/// The names in their order, each of them once.
pub(crate) fn different(alloc: Global, names: &[&str]) -> Result<IndexSet<String>, NetworkFault>
    ensures { Gives (λ table. owned table.keys) result (network.different (texts names.now)) }
{
    let mut table = IndexSet::new(alloc);
    for (i, name) in names.iter().enumerate() {
        let (_, added) = table.insert_full(String::from_str(alloc, name)?)?;
        if !added {
            let path = item_path(alloc, "/switches", i)?;
            return Err(NetworkFault::NameTwice { path });
        }
    }
    Ok(table)
}

fn number(table: &IndexSet<String>, name: &str) -> Option<usize>
    ensures { result ≡ network.number_of (owned table.now.keys) name.now }
{
    table.get_index_of(name)
}

fn joined(table: &IndexSet<String>, link: &NamedLink<'_>) -> Option<NumberedLink>
    ensures { option_map numbered_view result
        ≡ network.joined (owned table.now.keys) (link_view link.now) }
{
    let one = number(table, link.one)?;
    let other = number(table, link.other)?;
    Some(NumberedLink {
        one,
        one_port: link.one_port,
        other,
        other_port: link.other_port,
    })
}

fn numbered(
    alloc: Global,
    table: &IndexSet<String>,
    i: usize,
    link: &NamedLink<'_>,
) -> Result<NumberedLink, NetworkFault>
    ensures { Gives numbered_view result
        (network.numbered (owned table.now.keys) i (link_view link.now)) }
{
    match joined(table, link) {
        Some(link) => Ok(link),
        None => {
            let path = item_path(alloc, "/links", i)?;
            Err(NetworkFault::NoSuchSwitch { path })
        }
    }
}

/// The links by the numbers of their switches.
pub(crate) fn all_numbered(
    alloc: Global,
    table: &IndexSet<String>,
    links: &[NamedLink<'_>],
) -> Result<Vec<NumberedLink>, NetworkFault>
    ensures { Gives (λ v. numbered_views v.items) result
        (network.all_numbered (owned table.now.keys) (link_views links.now)) }
{
    let mut all = Vec::new(alloc);
    for (i, link) in links.iter().enumerate() {
        all.push(numbered(alloc, table, i, link)?)?;
    }
    Ok(all)
}
