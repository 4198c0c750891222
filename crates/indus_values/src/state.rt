//! What a property works on: states, what a hop shows, and what comes of it.

use arrayvec::ArrayVec;
use bit_values::Bits;
use indus_tree::Decl;

/// What the control plane set a variable to.
#[derive(Debug, Drop)]
pub enum ControlValue {
    One(Bits),
    /// The keys of a set, each part by part.
    Members(Vec<Vec<Bits>>),
    /// The keys of a dict, each part by part, with their values.
    Pairs(Vec<(Vec<Bits>, Bits)>),
}

/// The variables that travel with a packet: a list for each, in order of declaration. A scalar is a
/// list of one.
#[derive(Debug)]
pub struct TeleState {
    pub items: Vec<Vec<Bits>>,
}

impl Drop for TeleState {
    fn drop(self) {
        let TeleState { items: _items } = self;
    }
}

/// The sensors of a switch: a list for each, in order of declaration. A scalar is a list of one.
#[derive(Debug)]
pub struct SensorState {
    pub cells: Vec<Vec<Bits>>,
}

impl Drop for SensorState {
    fn drop(self) {
        let SensorState { cells: _cells } = self;
    }
}

/// What a hop shows.
#[derive(Debug, Drop)]
pub struct HopView {
    pub switch: u16,
    /// Whether the hop is the packet's first.
    pub first: bool,
    /// Whether the hop is the packet's last.
    pub last: bool,
    /// The header variables in the entry part, in order of declaration.
    pub entry_: Vec<Bits>,
    /// The header variables in the exit part, or `None` where forwarding drops the packet.
    pub exit_: Option<Vec<Bits>>,
    /// The control variables at the switch, in order of declaration.
    pub control: Vec<ControlValue>,
}

/// Values for the control plane.
#[derive(Debug, Drop)]
pub struct Report {
    /// The place of the statement among those of the text.
    pub number: u16,
    pub values: ArrayVec<Bits, 8>,
}

/// What comes of a hop besides the states.
#[derive(Debug, Drop)]
pub struct HopResult {
    pub rejected: bool,
    pub reports: Vec<Report>,
}

/// What no statement changes: the declarations, what the hop shows, what `last_hop` reads, and the
/// header variables.
#[derive(Clone, Copy)]
pub struct Env<'a> {
    pub decls: &'a [Decl],
    pub view: &'a HopView,
    pub last: bool,
    pub values: &'a [Bits],
}
