//! Where a packet is.

ghost use Rattle.std.specs.Prelude.{◌≡◌, true};
ghost use Rattle.p4_machine.specs.Buffers.{is_some_packet};

use p4_machine::Pass;

/// A packet in flight to a port of a switch.
#[derive(Drop)]
pub(crate) struct Flight {
    pub switch: u16,
    pub port: u16,
    pub frame: Vec<u8>,
    /// How many switches it has passed.
    pub passed: u8,
}

/// A place of a switch for a packet that waits, and for how many bytes of rest it has room.
pub(crate) struct Seat<P: Pass + Drop> {
    pub place: Box<P::Place>,
    pub room: u32,
    ghost sized: { (P.place place.value).room ≡ room },
}

impl<P: Pass + Drop> Drop for Seat<P> {
    fn drop(self) {
        let Seat {
            place: _place,
            room: _,
        } = self;
    }
}

/// A packet that waits between the halves of its passage of a switch, to which it came by a port.
#[derive(Drop)]
pub(crate) struct Parked<P: Pass + Drop> {
    pub switch: u16,
    pub port: u16,
    pub queued: Seat<P>,
    /// How many switches it has passed.
    pub passed: u8,
    ghost full: { is_some_packet (P.place queued.place.value).waiting ≡ true },
}

/// Where a packet is.
#[derive(Drop)]
pub(crate) enum Place<P: Pass + Drop> {
    Flying(Flight),
    Waiting(Parked<P>),
    /// It is at its end.
    Over,
}

/// How many switches a packet may pass, and the greatest length of a frame on a link.
#[derive(Clone, Copy, Drop)]
pub(crate) struct Limits {
    pub hops: u8,
    pub link: u32,
}
