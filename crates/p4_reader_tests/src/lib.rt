//! Tests of the readers and the printer of P4: texts with their trees, texts that spell none, and
//! programs that are read and printed.
#![tactic(auto)]

#[cfg(test)]
mod expressions;
#[cfg(test)]
mod places;
#[cfg(test)]
mod printing;
#[cfg(test)]
mod programs;
#[cfg(test)]
mod samples;
#[cfg(test)]
mod show;
