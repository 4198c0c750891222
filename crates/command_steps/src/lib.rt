//! What a command does: it reads its job, makes what is written of it, and answers.
//!
//! The layer above gets `Steps`, in which a command says how its job is read and what is made of it, and
//! `answer`, which does so over a store and a sink. Its contract is that of a whole command: each answer has
//! its cause in the command's course (`specs/Whole`), and says what stands after it. `put_behind` makes one
//! output of files that were made before and of another.
#![tactic(auto)]

mod answering;
mod behind;
mod plan;
mod steps;

pub use answering::answer;
pub use behind::put_behind;
pub use steps::Steps;
