//! The run of a network of switches, and what a property says of the paths that its packets take.
//!
//! The crate has definitions, and laws about them; no code runs a network here. The layers above
//! get `run_of_halves`, the run over half-hops, `run_of_hops`, the run over whole hops, and
//! `path_meaning`, the fold of a property's parts over the log of a run. They know no language: a
//! machine is what the switches' programs do, a property is what its blocks do. `specs/Machine`,
//! `Network`, `Events`, `NetworkRun`, `PathMeaning` and `World` are read in this order; `Hop` is
//! what a property does at a whole hop.
//!
//! Follows: Hydra, "Hydra: Effective Runtime Network Verification", SIGCOMM 2023, for init,
//! telemetry and checker.
//!
//! Not promised: anything of time, or of an order of events that the schedule does not give.
#![tactic(auto)]

mod laws;

pub use laws::{
    a_passage_is_a_hop, closing_ends_every_packet, each_packet_ends_once,
    other_places_change_nothing, passed_stays_below_the_limit, whole_hops_are_half_hops,
};
