//! That slots follow the stores of a passage. Each law is the contract of a function that does nothing.

ghost use Rattle.slot_metadata.specs.Laws.{DropsAgree, ErrorsFollow, PortsAgree, StartsFollow, TurnsWait};

/// Slots follow the store before the parser.
pub fn starts_follow()
    ensures { StartsFollow }
{}

/// Slots follow the store behind the parser.
pub fn errors_follow()
    ensures { ErrorsFollow }
{}

/// A packet is dropped where the store says so.
pub fn drops_agree()
    ensures { DropsAgree }
{}

/// What waits for egress is the slots' own store.
pub fn turns_wait()
    ensures { TurnsWait }
{}

/// The port by which a packet leaves is that of the store.
pub fn ports_agree()
    ensures { PortsAgree }
{}
