//! What a switch does with a packet.

ghost use Rattle.std.specs.Prelude.{◌≡◌, ◌≤◌, ◌<◌, List, [], None, length, map, IfOk, OnOk, OnErr};
ghost use Rattle.std.specs.Option.{option_map};
ghost use Rattle.p4_tree.specs.Tree as tree;
ghost use Rattle.p4_meaning.specs.Statements.{cell_at};
ghost use Rattle.p4_meaning.specs.Pass as meaning;
ghost use Rattle.p4_tables.specs.State as state;
ghost use Rattle.p4_tables.specs.State.{replaced};
ghost use Rattle.p4_tables.specs.Faults.{IsReplaceable};
ghost use Rattle.table_entries.specs.View.{entry_of, given_act};
ghost use Rattle.p4_machine.specs.Passages.{entry_in, exit_in, passage_in, register_name};
ghost use Rattle.p4_machine.specs.Buffers.{IsMadeFor, IsPlaceFor, Place, goes_out, is_queued, is_some_packet};
ghost use Rattle.p4_machine.specs.declared.pass.Passed.TheVariants as passed;

use crate::buffer::FrameBuf;
use bit_values::Bits;
use p4_tables::Entry;
use std::alloc::{AllocError, Global};

/// How the entry half of a passage ends.
#[derive(Clone, Copy, Debug, PartialEq, Eq)]
pub enum Entered {
    /// The packet waits for egress.
    Queued,
    Dropped,
}

/// How a passage ends. The frame that goes out is in the buffer.
#[derive(Clone, Copy, Debug, PartialEq, Eq)]
pub enum Passed {
    Out { port: u16 },
    Dropped,
}

/// A switch that runs a program. After want of memory in `enter`, `leave` or `pass` it is given up,
/// and so is the place of the packet.
pub trait Pass {
    /// A place for a packet between the halves of its passage.
    type Place: Drop;

    /// For which program a place was made, its room, and what waits there.
    ghost place: { Self.Place → Place };

    /// The program.
    ghost program: { Self → tree.Program };

    /// What its tables hold, by their numbers.
    ghost tables: { Self → List state.Held };

    /// The cells of its registers, by their full names.
    ghost cells: { Self → meaning.Registers };

    /// A place for a packet of this switch, with room for so many bytes that the parser does not
    /// consume.
    fn room(&self, alloc: Global, bytes: u32) -> Result<Self::Place, AllocError>
        ensures made { IfOk result (λ q. IsPlaceFor (program self.now) (place q)) }
        ensures room { IfOk result (λ q. (place q).room ≡ bytes) }
        ensures empty { IfOk result (λ q. (place q).waiting ≡ None) };

    /// A frame enters by a port: parser, verify checksum and ingress. Then the packet waits in the
    /// place, or is dropped. The buffer has the digests of this half, and no frame.
    fn enter(
        &mut self,
        alloc: Global,
        port: u16,
        frame: &[u8],
        buf: &mut FrameBuf,
        q: &mut Self::Place,
    ) -> Result<Entered, AllocError>
        requires short { length frame.now ≤ 65791 }
        requires buffer { IsMadeFor (program self.old) buf.old.needs }
        requires place { IsPlaceFor (program self.old) (place q.old) }
        requires empty { (place q.old).waiting ≡ None }
        requires room { length frame.now ≤ (place q.old).room }
        ensures program { program self.new ≡ program self.old }
        ensures tables { tables self.new ≡ tables self.old }
        ensures cells { OnOk result (cells self.new
            ≡ (entry_in (program self.old) (tables self.old) (cells self.old) port frame.now).registers) }
        ensures queued { OnOk result ((place q.new).waiting
            ≡ (entry_in (program self.old) (tables self.old) (cells self.old) port frame.now).queued) }
        ensures answer { IfOk result (λ e. is_queued e ≡ is_some_packet (place q.new).waiting) }
        ensures frame { OnOk result (buf.new.frame ≡ []) }
        ensures digests { OnOk result (buf.new.digests
            ≡ (entry_in (program self.old) (tables self.old) (cells self.old) port frame.now).digests) }
        ensures buffer { IsMadeFor (program self.new) buf.new.needs }
        ensures place { IsPlaceFor (program self.new) (place q.new) }
        ensures room { (place q.new).room ≡ (place q.old).room };

    /// The packet that waits leaves: egress, compute checksum and deparser. The buffer has the frame
    /// that goes out, which is empty where the packet is dropped, and the digests of this half. Where
    /// nothing waits, nothing happens.
    fn leave(
        &mut self,
        alloc: Global,
        q: &mut Self::Place,
        buf: &mut FrameBuf,
    ) -> Result<Passed, AllocError>
        requires buffer { IsMadeFor (program self.old) buf.old.needs }
        requires place { IsPlaceFor (program self.old) (place q.old) }
        ensures program { program self.new ≡ program self.old }
        ensures tables { tables self.new ≡ tables self.old }
        ensures cells { OnOk result (cells self.new
            ≡ (exit_in (program self.old) (tables self.old) (cells self.old) [] (place q.old).waiting).registers) }
        ensures out { IfOk result (λ x. goes_out x buf.new.frame
            ≡ (exit_in (program self.old) (tables self.old) (cells self.old) [] (place q.old).waiting).out) }
        ensures dropped { IfOk result (λ x. x ≡ passed.Dropped → buf.new.frame ≡ []) }
        ensures digests { OnOk result (buf.new.digests
            ≡ (exit_in (program self.old) (tables self.old) (cells self.old) [] (place q.old).waiting).digests) }
        ensures empty { (place q.new).waiting ≡ None }
        ensures buffer { IsMadeFor (program self.new) buf.new.needs }
        ensures place { IsPlaceFor (program self.new) (place q.new) }
        ensures room { (place q.new).room ≡ (place q.old).room };

    /// A passage: the entry half, and then the exit half.
    fn pass(
        &mut self,
        alloc: Global,
        port: u16,
        frame: &[u8],
        buf: &mut FrameBuf,
    ) -> Result<Passed, AllocError>
        requires short { length frame.now ≤ 65791 }
        requires buffer { IsMadeFor (program self.old) buf.old.needs }
        ensures program { program self.new ≡ program self.old }
        ensures tables { tables self.new ≡ tables self.old }
        ensures cells { OnOk result (cells self.new
            ≡ (passage_in (program self.old) (tables self.old) (cells self.old) port frame.now).registers) }
        ensures out { IfOk result (λ x. goes_out x buf.new.frame
            ≡ (passage_in (program self.old) (tables self.old) (cells self.old) port frame.now).out) }
        ensures dropped { IfOk result (λ x. x ≡ passed.Dropped → buf.new.frame ≡ []) }
        ensures digests { OnOk result (buf.new.digests
            ≡ (passage_in (program self.old) (tables self.old) (cells self.old) port frame.now).digests) }
        ensures buffer { IsMadeFor (program self.new) buf.new.needs };

    /// One table holds these entries, and, where one is given, this default. After want of memory the
    /// tables are as they were.
    fn set_table(
        &mut self,
        alloc: Global,
        table: u32,
        list: Vec<Entry>,
        default: Option<(u32, Vec<Bits>)>,
    ) -> Result<(), AllocError>
        requires there { table < length (tables self.old) }
        requires accepted { IsReplaceable (tables self.old) table (map entry_of list.items) (option_map given_act default) }
        ensures program { program self.new ≡ program self.old }
        ensures cells { cells self.new ≡ cells self.old }
        ensures tables { OnOk result (tables self.new
            ≡ replaced (tables self.old) table (map entry_of list.items) (option_map given_act default)) }
        ensures kept { OnErr result (tables self.new ≡ tables self.old) };

    /// A cell of the register of a number.
    fn cell(&self, register: u32, index: u32) -> Bits
        ensures { result ≡ cell_at (cells self.now (register_name (program self.now) register)) index };
}
