//! That there are too many table items.

use thiserror::Error;

/// The first switch with more table items than a switch may have, or the number of switches where
/// each has few enough and all together have too many.
#[derive(Debug, Drop, Error)]
#[error("too many table items")]
pub struct TooMany {
    pub switch: u16,
}
