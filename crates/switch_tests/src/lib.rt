//! Tests of switches and their tables, of calls that no command makes: entries and defaults of every form that a table is
//! offered, a whole passage in one call, whether the tables of one program have a place in another, checksums of bytes, and the
//! tables of control variables, from the texts of their declarations, with what they hold.
//! What programs do with a frame, by halves, and what tables choose stands as rows of `forward` and `run` under `tests/` at
//! the top of the repository.
#![tactic(auto)]

#[cfg(test)]
mod contents;
#[cfg(test)]
mod entries;
#[cfg(test)]
mod offers;
#[cfg(test)]
mod passages;
#[cfg(test)]
mod places;
#[cfg(test)]
mod sums;
#[cfg(test)]
mod tables;
#[cfg(test)]
mod texts;
