//! Where the frames of captures enter a network.

ghost use Rattle.std.specs.Prelude.{◌≡◌, map};
ghost use Rattle.case_file.specs.Views.{capture_view, capture_views};
ghost use Rattle.network_course.specs.Places as places;
ghost use Rattle.network_course.specs.Views.{Gives, place_view, place_views};
ghost use Rattle.network_course.specs.declared.places.PlaceFault.TheVariants.{NoMemory};

use case_file::Capture;
use json_parts::item_path;
use lex_text::Name;
use network_file::Network;
use std::alloc::{AllocError, AllocFailed, Global};

/// A switch and a port of it, by their numbers.
#[derive(Clone, Copy, Debug, PartialEq, Eq)]
pub struct Place {
    pub switch: u16,
    pub port: u16,
}

/// Why the captures of a case don't fit its network. `path` is that of the first such capture.
#[derive(Debug, Drop)]
pub enum PlaceFault {
    /// Memory ran out; this says nothing of the captures.
    NoMemory,
    /// The capture's switch is none of the network.
    NoSuchSwitch { path: Name },
    /// The capture's port is over 510, or has a link.
    LinkedPort { path: Name },
}

impl From<AllocError> for PlaceFault {
    ghost use Rattle.std.specs.Prelude.{◌≡◌};

    ghost from_gives = { λ _ fault. fault ≡ NoMemory };

    fn from(_refused: AllocError) -> PlaceFault {
        PlaceFault::NoMemory
    }
}

impl<T: Drop> From<AllocFailed<T>> for PlaceFault {
    ghost use Rattle.std.specs.Prelude.{◌≡◌};

    ghost from_gives = { λ _ fault. fault ≡ NoMemory };

    fn from(_refused: AllocFailed<T>) -> PlaceFault {
        PlaceFault::NoMemory
    }
}

fn edge_port(
    alloc: Global,
    network: &Network,
    number: usize,
    switch: u16,
    port: u64,
) -> Result<Place, PlaceFault>
    ensures { Gives place_view result (places.edge_port network.now number switch port) }
{
    if port > 510 || network.next(switch, port as u16).is_some() {
        return Err(PlaceFault::LinkedPort {
            path: item_path(alloc, "/captures", number)?,
        });
    }
    Ok(Place {
        switch,
        port: port as u16,
    })
}

#[tactic(auto, unfolding(crate::specs::Places::place_at))]
fn place_at(
    alloc: Global,
    network: &Network,
    number: usize,
    capture: &Capture<'_>,
) -> Result<Place, PlaceFault>
    ensures { Gives place_view result (places.place_at network.now number (capture_view capture.now)) }
{
    match network.number(capture.switch) {
        Some(switch) => edge_port(alloc, network, number, switch, capture.port),
        None => Err(PlaceFault::NoSuchSwitch {
            path: item_path(alloc, "/captures", number)?,
        }),
    }
}

/// The switch and the port of each capture, in the captures' order.
///
/// # Errors
///
/// The fault of the first capture that has one, its switch before its port; else `NoMemory` alone,
/// where memory runs out.
pub fn places_of(
    alloc: Global,
    network: &Network,
    captures: &[Capture<'_>],
) -> Result<Vec<Place>, PlaceFault>
    ensures { Gives (λ v. place_views v.items) result
        (places.places_of network.now (capture_views captures.now)) }
{
    let mut found = Vec::new(alloc);
    for (i, capture) in captures.iter().enumerate() {
        found.push(place_at(alloc, network, i, capture)?)?;
    }
    Ok(found)
}
