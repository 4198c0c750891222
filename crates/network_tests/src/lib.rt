//! Worked rows of the network's run, of the path meaning and of linkage, of a P4 program with a table, and
//! of one whose tables hold a control variable: what the definitions give on small networks. Each is
//! proved by computation.
#![tactic(auto)]

#[cfg(test)]
mod linkages;
#[cfg(test)]
mod runs;
#[cfg(test)]
mod settings;
#[cfg(test)]
mod tables;
