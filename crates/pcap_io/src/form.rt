//! How the numbers of a capture are written, which its magic number says.

ghost use Rattle.std.specs.Prelude.{◌≡◌, ◌≢◌, ◌+◌, ◌≤◌, length, IfSome, IfNone};
ghost use Rattle.pcap_io.specs.Fields.{field, magic_of};

use byteorder::{BigEndian, ByteOrder, LittleEndian};

/// Which byte of a number stands first in the file.
#[derive(Clone, Copy, Debug, PartialEq, Eq)]
pub enum Order {
    Little,
    Big,
}

/// What the second number of a record's time counts.
#[derive(Clone, Copy, Debug, PartialEq, Eq)]
pub enum Precision {
    Micros,
    Nanos,
}

/// What the magic number says of a file.
#[derive(Clone, Copy, Debug, PartialEq, Eq)]
pub struct Form {
    pub order: Order,
    pub precision: Precision,
}

/// The number in the two bytes at offset `at`.
pub fn u16_at(order: Order, file: &[u8], at: usize) -> u16
    requires { at + 2 ≤ length file.now }
    ensures { result ≡ field order 2 at file.now }
{
    let (_, bytes) = file.split_at(at);
    match order {
        Order::Little => LittleEndian::read_u16(bytes),
        Order::Big => BigEndian::read_u16(bytes),
    }
}

/// The number in the four bytes at offset `at`.
pub fn u32_at(order: Order, file: &[u8], at: usize) -> u32
    requires { at + 4 ≤ length file.now }
    ensures { result ≡ field order 4 at file.now }
{
    let (_, bytes) = file.split_at(at);
    match order {
        Order::Little => LittleEndian::read_u32(bytes),
        Order::Big => BigEndian::read_u32(bytes),
    }
}

/// What a magic number says, which was read with the lowest byte first; `None` where it is none.
pub fn form_of(magic: u32) -> Option<Form>
    ensures some { IfSome result (λ form. magic ≡ magic_of form.order form.precision) }
    ensures none { IfNone result ((form : Form) → magic ≢ magic_of form.order form.precision) }
{
    let (order, precision) = match magic {
        0xa1b2c3d4 => (Order::Little, Precision::Micros),
        0xa1b23c4d => (Order::Little, Precision::Nanos),
        0xd4c3b2a1 => (Order::Big, Precision::Micros),
        0x4d3cb2a1 => (Order::Big, Precision::Nanos),
        _ => return None,
    };
    Some(Form { order, precision })
}
