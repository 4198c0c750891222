//! The telemetry of properties that are written as texts: the room that it needs, and its bytes, read
//! and written again.

ghost use Rattle.std.specs.Prelude.{◌≡◌, ◌+◌, length, IfOk};
ghost use Rattle.tele_layout.specs.Layouts.{IsLayout};

use crate::texts::{put, put_count, put_lists, same, sides, typed};
use std::alloc::{AllocError, Global};
use std::mem::forget;
use std::process::Abort;
use tele_layout::{Layout, LayoutFault, layout, read_tele, write_tele};

/// So many bytes, none of which telemetry begins with.
fn blank(alloc: Global, count: usize) -> Result<Vec<u8>, AllocError>
    ensures { IfOk result (λ v. length v.items ≡ count) }
{
    let mut bytes = Vec::new(alloc);
    for _ in 0..count {
        bytes.push(0xff)?;
    }
    Ok(bytes)
}

/// What is read from the bytes, and whether it is written as the same.
fn put_again(rt: &impl Abort, alloc: Global, out: &mut String, l: &Layout, bytes: &[u8])
    requires { IsLayout l.now }
{
    assert!(rt; bytes.len() == l.bytes as usize);
    match read_tele(alloc, l, bytes).expect(rt, "memory") {
        None => put(rt, out, "none"),
        Some(state) => {
            let mut written = blank(alloc, l.bytes as usize).expect(rt, "memory");
            write_tele(l, &state, &mut written);
            put_lists(rt, alloc, out, &state.items);
            put(
                rt,
                out,
                if written.as_slice() == bytes {
                    "back"
                } else {
                    "other"
                },
            );
        }
    }
}

/// What comes of a property, a room and hexadecimal digits.
fn answer_of(rt: &impl Abort, alloc: Global, text: &str, room: &str, digits: &str) -> String {
    let p = typed(rt, alloc, text);
    let room = u16::from_str_radix(room, 10).expect(rt, "a room");
    let mut out = String::new(alloc);
    match layout(alloc, &p, room) {
        Ok(l) => {
            let bytes = hex::decode(alloc, digits).expect(rt, "hexadecimal digits");
            put_again(rt, alloc, &mut out, &l, &bytes);
        }
        Err(LayoutFault::RoomShort { need, room }) => {
            put_count(rt, alloc, &mut out, "short ", u128::from(need), " ");
            put_count(rt, alloc, &mut out, "", u128::from(room), "");
        }
        Err(LayoutFault::NoMemory) => panic!(rt; "memory is wanting"),
    }
    forget(p);
    out
}

/// Each row is a property, a room, digits and what comes of them.
fn agree(rt: &impl Abort, alloc: Global, table: &str) {
    for row in table.lines() {
        let (text, rest) = sides(rt, row);
        let (room, rest) = sides(rt, rest);
        let (digits, wanted) = sides(rt, rest);
        same(rt, &answer_of(rt, alloc, text, room, digits), wanted, row);
    }
}

/// A number, a list and a truth value: 61 bits.
const MIXED: &str = "\
tele bit<8> tenant; tele bit<9>[4] ports; tele bool seen; {} {} {} => 7 => - => short 8 7
tele bit<8> tenant; tele bit<9>[4] ports; tele bool seen; {} {} {} => 8 => 4805020080800008 => [8w5] [9w1 9w2] [1w1] back
tele bit<8> tenant; tele bit<9>[4] ports; tele bool seen; {} {} {} => 65535 => 4805020080800000 => [8w5] [9w1 9w2] [1w0] back
tele bit<8> tenant; tele bit<9>[4] ports; tele bool seen; {} {} {} => 8 => 4805020080800009 => none
tele bit<8> tenant; tele bit<9>[4] ports; tele bool seen; {} {} {} => 8 => 4805020080800108 => none
tele bit<8> tenant; tele bit<9>[4] ports; tele bool seen; {} {} {} => 8 => 4805050080800008 => none
tele bit<8> tenant; tele bit<9>[4] ports; tele bool seen; {} {} {} => 8 => 4905020080800008 => none
tele bit<8> tenant; tele bit<9>[4] ports; tele bool seen; {} {} {} => 8 => 48ff04ffffffffff => none
tele bit<8> tenant; tele bit<9>[4] ports; tele bool seen; {} {} {} => 8 => 48ff04fffffffff8 => [8w255] [9w511 9w511 9w511 9w511] [1w1] back";

#[test]
fn a_number_a_list_and_a_truth_value(rt: HostRuntime) {
    agree(&rt, rt.alloc(), MIXED);
}

/// No variable, the widest one, lists of truth values, other kinds of variables, the second edition.
const OTHERS: &str = "\
{} {} {} => 0 => - => short 1 0
{} {} {} => 1 => 48 => back
{} {} {} => 1 => 49 => none
edition 2; {} {} {} => 1 => 49 => back
edition 2; tele bit<8> n; {} {} {} => 2 => 4901 => [8w1] back
edition 2; tele bit<8> n; {} {} {} => 2 => 4801 => none
tele bit<128> x; {} {} {} => 16 => - => short 17 16
tele bit<128> x; {} {} {} => 17 => 48000102030405060708090a0b0c0d0e0f => [128w5233100606242806050955395731361295] back
tele bool[3] l; {} {} {} => 3 => 4803a0 => [1w1 1w0 1w1] back
tele bool[3] l; {} {} {} => 3 => 4802a0 => none
tele bool[3] l; {} {} {} => 3 => 480280 => [1w1 1w0] back
tele bool[3] l; {} {} {} => 3 => 480000 => [] back
sensor bit<8> s; tele bit<3> n; control bit<8> c; {} {} {} => 2 => 48a0 => [3w5] back
tele bit<128>[255] l; {} {} {} => 256 => - => short 4082 256";

#[test]
fn other_variables(rt: HostRuntime) {
    agree(&rt, rt.alloc(), OTHERS);
}
