//! Why nothing was read.

/// Why no expression or no statements stand at a token within the limits. `at` is the number of a
/// token.
#[derive(Clone, Copy, Debug, PartialEq, Eq)]
pub enum ReadStop {
    /// Memory ran out; this says nothing of the tokens.
    NoMemory,
    /// Nothing goes on with this token, and those before it are within the limits; or all tokens
    /// are, they end too early, and this is their number.
    Syntax { at: u32 },
    /// The same, where the token is a word or mark that this subset leaves out, or a text in quotes.
    LeftOut { at: u32 },
    /// All that goes on with this token is too high, or too many round brackets are open.
    TooDeep { at: u32 },
}
