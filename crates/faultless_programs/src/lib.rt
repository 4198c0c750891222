//! What it gives that a program has none of the faults of `link_faults`.
//!
//! The crate has definitions and laws, and no code. The layer above gets, of a program without fault: that
//! it can be linked (`specs/Given`); that header variables read own fields of the widths that are
//! declared, as the law of linkage asks (`specs/FoundViews`); and that linked programs are well typed,
//! since room and weight keep them within the limits of a switch (`specs/Within`).
//!
//! Follows: P4_16 and v1model, this project's subset; Hydra, "Hydra: Effective Runtime Network
//! Verification", SIGCOMM 2023.
#![tactic(auto)]

mod laws;

pub use laws::{
    faultless_is_well_typed, found_fields_are_declared, found_views_are_own, found_views_fit,
    linked_in_room, no_fault_can_link, room_stays, room_suffices,
};
