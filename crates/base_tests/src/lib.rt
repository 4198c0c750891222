//! Tests of the crates that stand on nothing: numbers, whose expected values come from outside, stores and sinks, tokens, reserved
//! words and marks.
//!
//! They stand here, as those of other layers do, so that no crate is proved a second time for its tests.
#![tactic(auto)]

#[cfg(test)]
mod breaks;
#[cfg(test)]
mod lexing;
#[cfg(test)]
mod numbers;
#[cfg(test)]
mod stores;
#[cfg(test)]
mod words;
