//! What terms are valued over.

/// The numbers in the slots, and which headers are valid, by their numbers.
#[derive(Drop)]
pub struct State {
    pub slots: Vec<u128>,
    pub valid: Vec<bool>,
}
