//! Laws of registers, each the contract of a function that does nothing.

ghost use Rattle.sensor_registers.specs.Laws.{CellsAreReadBack};

/// The value of what a cell holds is the sensor's, and cells that are 0 hold initial values.
pub fn cells_are_read_back()
    ensures { CellsAreReadBack }
{}
