//! A monitor made by hand, of a property made by hand.
//!
//! The crate has definitions and laws, and no code. `MonitorLaws` are kept by a monitor with a header
//! variable, a list, a sensor array, reports, and a control variable that two tables hold, so that none
//! of these laws is about nothing. Monitors that are wrong in one thing do not keep them.
//!
//! Follows: P4_16 and v1model, this project's subset.
#![tactic(auto)]

mod rows;
mod wrong;

ghost use Rattle.monitor_laws.specs.MonitorLaws.{MonitorLaws};
ghost use Rattle.sample_monitor.specs.Property.{IsFit, AreByteViews, OnlyZero, AreBytes};
ghost use Rattle.sample_monitor.specs.Sample.{sample, SampleKeeps};

pub use rows::{a_packet_is_judged, statements_judge_it, telemetry_is_bytes};
pub use wrong::wrong_monitors_break_a_law;

/// The monitor keeps the laws.
pub fn sample_keeps_the_laws()
    ensures { MonitorLaws sample IsFit SampleKeeps AreByteViews OnlyZero AreBytes }
{}
