//! The steps of a schedule.

use indus_values::ControlValue;

/// A step of a schedule: the entry half of a packet's passage of a switch, the exit half of one, or
/// new contents of a control variable at a switch.
#[derive(Debug, Drop)]
pub enum Event {
    Enter(u32),
    Leave(u32),
    Set {
        switch: u16,
        variable: u32,
        contents: ControlValue,
    },
}
