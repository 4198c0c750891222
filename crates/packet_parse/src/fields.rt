//! What is in sight at one place of a program, by the paths that are written there.

use bit_values::Bits;
use lex_text::Name;
use p4_packets::ParserError;

/// The standard metadata: ports of 9 bits, and the bytes of the frame that came.
#[derive(Clone, Copy, Debug, PartialEq, Eq)]
pub struct StdMeta {
    pub ingress_port: u16,
    pub egress_spec: u16,
    pub egress_port: u16,
    pub packet_length: u32,
    pub checksum_error: bool,
    pub parser_error: ParserError,
}

/// What is in sight at one place of a program. The first member of a path counts. Constants at top
/// level come from the program.
pub struct Fields {
    /// Whether each header is valid.
    pub valid: Vec<(Vec<Name>, bool)>,
    /// The word of each field of headers and metadata, variable, local constant and parameter of an
    /// action.
    pub values: Vec<(Vec<Name>, Bits)>,
    /// The name of the standard metadata; empty where it is not in sight.
    pub std_name: Name,
    pub std: StdMeta,
}

impl Drop for Fields {
    fn drop(self) {
        let Fields {
            valid: _valid,
            values: _values,
            std_name: _std_name,
            std: _std,
        } = self;
    }
}
