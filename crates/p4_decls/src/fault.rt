//! Why a text is no program within the limits.

use lex_text::{LexFault, Name};
use thiserror::Error;

/// Why a text is no program within the limits. `at` is the number of a token.
#[derive(Debug, Drop, Error)]
pub enum ProgramFault {
    /// Memory ran out; this says nothing of the text.
    #[error("no memory")]
    NoMemory,
    /// The text has no tokens.
    #[error("{0}")]
    Lex(LexFault),
    /// No program goes on with this token, and those before it are within the limits; or all
    /// tokens are, they spell none, and this is their number.
    #[error("no program goes on at token {at}")]
    Syntax { at: u32 },
    /// The same of a token that this subset of P4 leaves out, with its text.
    #[error("the token {at} is of a part of P4 that is left out")]
    LeftOut { at: u32, what: Name },
    /// Each program that goes on with this token is too high, or too many brackets are open.
    #[error("the program is too deep at token {at}")]
    TooDeep { at: u32 },
}
