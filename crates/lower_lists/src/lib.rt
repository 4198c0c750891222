//! Flat code of properties: the blocks of a property without loops, pushes, and counts and members of
//! lists, over numbered scalars.
//!
//! The layer above gets `flatten`. A scalar of the packet's whose declaration is the v-th, from 0, is
//! named `v_0`; a list's count is named `v_c` and its items `v_0`, `v_1` and so on. Other names stay.
//!
//! `specs/Flat` defines flat code, by recursion on statements.
//!
//! Follows: "Hydra: Effective Runtime Network Verification", SIGCOMM 2023; the names are this project's
//! profile.
#![tactic(auto)]

mod blocks;
mod expressions;
mod fault;
mod lists;
mod names;
mod place;
mod property;

pub use fault::LowerFault;
pub use list_pushes::{count_name, item_name};
pub use property::{FlatProperty, flatten};
