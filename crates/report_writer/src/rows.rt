//! What is written: a line a row.

use bit_values::Bits;

/// A report or a digest: the packet and the switch that it comes from, the report's number or the
/// digest's receiver, and values.
#[derive(Clone, Copy, Debug)]
pub struct ReportRow<'a> {
    pub packet: u32,
    pub switch: &'a str,
    pub number: u32,
    pub values: &'a [Bits],
}

/// A cell of a register of a switch.
#[derive(Clone, Copy, Debug)]
pub struct CellRow<'a> {
    pub switch: &'a str,
    pub register: &'a str,
    pub index: u32,
    pub value: Bits,
}

/// How many packets a run has, and what became of them: `packets` is the sum of the next four.
#[derive(Clone, Copy, Debug, PartialEq, Eq)]
pub struct Counts {
    pub packets: u32,
    pub sent: u32,
    pub dropped: u32,
    pub rejected: u32,
    pub lost: u32,
    pub reports: u64,
}
