//! What extraction, validity and emission do to what slots show. Each law is the contract of a function
//! that does nothing.

ghost use Rattle.slot_packets.specs.Headers.{ExtractionFollows, EmissionFollows};
ghost use Rattle.slot_packets.specs.Validity.{ValidityFollows};
ghost use Rattle.slot_packets.specs.Queued.{DeclaredIsSlots};

/// Slots that got the fields of a header follow the store behind its `extract`.
pub fn extraction_follows()
    ensures { ExtractionFollows }
{}

/// Slots follow what setValid and setInvalid do.
pub fn validity_follows()
    ensures { ValidityFollows }
{}

/// The bits of the slots of a valid header are the bits of its fields.
pub fn emission_follows()
    ensures { EmissionFollows }
{}

/// A store that slots follow is, without the variables of controls, the slots' own store.
pub fn declared_is_slots()
    ensures { DeclaredIsSlots }
{}
