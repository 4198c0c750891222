//! That steps do what statements mean. Each law is the contract of a function that does nothing.

ghost use Rattle.slot_controls.specs.Laws.{ApplicationsDo, BlocksDo, BranchesDo, CallsDo, CodeDoes, CodeWidens, DigestsDo, DropsDo, IdlesDo, ListsDo, ReadsDo, TablesBranch, UpdatesDo, ValidityDoes, VerifiesDo, WritesDo};

/// Code does as a step what it does.
pub fn code_does()
    ensures { CodeDoes }
{}

/// An action's call does what the action of its name does.
pub fn calls_do()
    ensures { CallsDo }
{}

/// The application of a table does what that of its name does.
pub fn applications_do()
    ensures { ApplicationsDo }
{}

/// setValid and setInvalid do what they mean.
pub fn validity_does()
    ensures { ValidityDoes }
{}

/// mark_to_drop does what it means.
pub fn drops_do()
    ensures { DropsDo }
{}

/// A register's read does what it means.
pub fn reads_do()
    ensures { ReadsDo }
{}

/// A register's write does what it means.
pub fn writes_do()
    ensures { WritesDo }
{}

/// digest does what it means.
pub fn digests_do()
    ensures { DigestsDo }
{}

/// verify_checksum does what it means.
pub fn verifies_do()
    ensures { VerifiesDo }
{}

/// update_checksum does what it means.
pub fn updates_do()
    ensures { UpdatesDo }
{}

/// A call of another form does nothing.
pub fn idles_do()
    ensures { IdlesDo }
{}

/// An `if` of a term does what it means, where its branches do.
pub fn branches_do()
    ensures { BranchesDo }
{}

/// An `if` of a table's application does what it means, where its branches do.
pub fn tables_branch()
    ensures { TablesBranch }
{}

/// A block does what it means, where its statements do.
pub fn blocks_do()
    ensures { BlocksDo }
{}

/// Statements do what they mean, where those before and the last one do.
pub fn lists_do()
    ensures { ListsDo }
{}

/// Behind a statement that has code stand variables more, and nothing else.
pub fn code_widens()
    ensures { CodeWidens }
{}
