//! What becomes of a frame that a switch sends.

ghost use Rattle.std.specs.Prelude.{◌≡◌, ℕ, ◌+◌, ◌<◌, ◌≤◌, IfOk, OnOk};
ghost use Rattle.p4_tree.specs.Tree.{Program};
ghost use Rattle.network_run.specs.Network.{far_end};
ghost use Rattle.network_file.specs.Wiring.{wiring_of};
ghost use Rattle.path_runner.specs.Packets.{sent_of};
ghost use Rattle.path_runner.specs.Places.{place_in, limits_of};
ghost use Rattle.path_runner.specs.Departures.{sent_departure};
ghost use Rattle.path_runner.specs.Sound.{IsMadeAt};
ghost use Rattle.path_runner.specs.Views.{traffic_in};

use crate::packet::Sent;
use crate::place::{Flight, Limits, Place};
use crate::traffic::Traffic;
use network_file::Network;
use p4_machine::Pass;
use std::alloc::{AllocError, Global};

/// The greatest length of a frame that leaves by an edge port.
const LONGEST_FRAME: usize = 65_535;

/// Where a packet is whose frame a switch sends: the frame leaves by an edge port, unless it is too
/// long, or is put on a link, unless it is too long or the packet has passed as many switches as it may.
pub(crate) fn send<P: Pass + Drop>(
    alloc: Global,
    traffic: &mut Traffic,
    network: &Network,
    limits: Limits,
    passed: u8,
    sent: Sent,
) -> Result<Place<P>, AllocError>
    requires passed { passed < limits.hops }
    requires lost { traffic.old.lost < 4294967295 }
    ensures place { IfOk result (λ x. place_in x ≡ (sent_departure (limits_of limits) (traffic_in traffic.old) passed
        (sent_of sent) (far_end (wiring_of network.now) sent.switch sent.port)).place) }
    ensures made { (s : ℕ) (p : Program) → IfOk result (IsMadeAt s p) }
    ensures traffic { OnOk result (traffic_in traffic.new ≡ (sent_departure (limits_of limits) (traffic_in traffic.old) passed
        (sent_of sent) (far_end (wiring_of network.now) sent.switch sent.port)).traffic) }
    ensures dropped { traffic.new.dropped ≡ traffic.old.dropped }
    ensures lost_so_far { traffic.new.lost ≤ traffic.old.lost + 1 }
{
    match network.next(sent.switch, sent.port) {
        None => {
            if sent.frame.len() > LONGEST_FRAME {
                traffic.lost += 1;
            } else {
                traffic.edges.push(sent)?;
            }
            Ok(Place::Over)
        }
        Some((switch, port)) => {
            if passed + 1 >= limits.hops || sent.frame.len() > limits.link as usize {
                traffic.lost += 1;
                return Ok(Place::Over);
            }
            let frame = sent.frame.to_vec(alloc)?;
            traffic.wires.push(sent)?;
            Ok(Place::Flying(Flight {
                switch,
                port,
                frame,
                passed: passed + 1,
            }))
        }
    }
}
