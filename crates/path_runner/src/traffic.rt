//! What has happened in a network so far.

ghost use Rattle.std.specs.Prelude.{◌≡◌, ◌+◌, ◌++◌, map, OnOk};
ghost use Rattle.p4_statements.specs.Runs.{digest_of};
ghost use Rattle.switch_machines.specs.Programs.{network_digest};
ghost use Rattle.network_run.specs.NetworkRun.{told_by};

use crate::packet::{Sent, Told};
use p4_machine::Digest;
use std::alloc::{AllocError, Global};

/// The frames put on links, the frames that left by edge ports and the digests, each in the order of
/// events, and how many packets were dropped and lost.
#[derive(Drop)]
pub(crate) struct Traffic {
    pub wires: Vec<Sent>,
    pub edges: Vec<Sent>,
    pub told: Vec<Told>,
    pub dropped: u32,
    pub lost: u32,
}

impl Traffic {
    ghost use Rattle.path_runner.specs.Nets.{no_traffic};
    ghost use Rattle.path_runner.specs.Views.{traffic_in};

    /// Nothing yet.
    pub fn new(alloc: Global) -> Traffic
        ensures { traffic_in result ≡ no_traffic }
    {
        Traffic {
            wires: Vec::new(alloc),
            edges: Vec::new(alloc),
            told: Vec::new(alloc),
            dropped: 0,
            lost: 0,
        }
    }

    /// A packet's digests at a switch go behind those so far.
    pub fn tell(&mut self, packet: u32, switch: u16, digests: &[Digest]) -> Result<(), AllocError>
        ensures told { OnOk result (traffic_in self.new ≡ record (traffic_in self.old) {
          told = (traffic_in self.old).told ++ told_by packet switch (map network_digest (map digest_of digests.now));
        }) }
        ensures dropped { self.new.dropped ≡ self.old.dropped }
        ensures lost { self.new.lost ≡ self.old.lost }
    {
        for digest in digests {
            self.told.push(Told {
                packet,
                switch,
                digest: digest.copy(),
            })?;
        }
        Ok(())
    }
}
