//! Tests of properties from their texts: their trees, copies of typed ones, the telemetry's bytes, flat code, and the registers of
//! sensors. Texts that spell no property stand as rows of `check` under `tests/` at the top of the repository.
#![tactic(auto)]

#[cfg(test)]
mod copies;
#[cfg(test)]
mod flat;
#[cfg(test)]
mod joins;
#[cfg(test)]
mod sensors;
#[cfg(test)]
mod telemetry;
#[cfg(test)]
mod texts;
#[cfg(test)]
mod trees;
