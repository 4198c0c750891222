//! Laws of lowered code.

ghost use Rattle.lowered_code.specs.Laws.{CodeDoesWhatItsBlockDoes};

/// The code of a block of flat code leads from a run that stands for a state to one that stands for what
/// the block does to the state.
pub fn code_does_what_its_block_does()
    ensures { CodeDoesWhatItsBlockDoes }
{}
