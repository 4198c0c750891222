//! Tests of commands over stores and sinks in memory: whole command lines, with what fails, what is answered and what is
//! written.
#![tactic(auto)]

#[cfg(test)]
mod rows;
#[cfg(test)]
mod rules;
