//! The run of a network of switches.
//!
//! The layers above get `Net`, which runs any switches that pass frames (`Pass`), event by event: `new`
//! puts packets at edge ports, `step` is one event, and `finish` lets each packet go on to its end and
//! hands back a `RunLog`. Contracts see a net as a `State` (`specs/Nets`): the switches' tables and
//! registers, the packets' places, and what has happened so far. `Shows` says for which networks of the
//! run's definition it stands, which has a log of halves and the contents of control variables besides;
//! `RunsTo` says that an event of the program is the event of the definition, on each of them, whatever
//! the property reads. `switch_machines` says what the programs are there, `specs/Conditions` what is
//! asked of what is handed in.
//!
//! Tables that hold control variables are handed in as maps (`control_maps`); new contents go into all
//! tables of their variable in one step (`set_contents`). After want of memory a net is given up. Speed is not promised.
#![tactic(auto)]

mod halves;
mod handed;
mod log;
mod net;
mod packet;
mod parked;
mod place;
mod sending;
mod station;
mod traffic;

pub use log::RunLog;
pub use net::Net;
pub use packet::{Packet, Sent, Told};
