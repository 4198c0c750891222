//! The file of a program, read step by step.

ghost use Rattle.std.specs.Prelude.{◌≡◌, ◌≤◌, length, IfOk};
ghost use Rattle.p4_tree.specs.View.{program_of};
ghost use Rattle.p4_decls.specs.Faults.{IsProgram};
ghost use Rattle.job_course.specs.Steps.{Follows, Judged};
ghost use Rattle.program_course.specs.Files.{IsMisread, IsTyped, IsIllTyped, IsForwarding, IsTooLarge, whole_program, typed_program, forwarding_program};

use crate::lines::type_text;
use job_course::{
    Area, Refusal, Status, Stop, cause_text, lex_text, place_text, read_file, word_text,
};
use outside::Store;
use p4_decls::{ProgramFault, read_program};
use p4_tree::Program;
use p4_types::{ProgramTypeFault, TypedProgram, check_program};
use std::alloc::Global;

/// The greatest length of a program's file, in bytes.
const PROGRAM_LIMIT: u64 = 262_144;

/// The greatest number of bytes of all headers of a forwarding program.
const HEADER_LIMIT: u32 = 2_048;

/// The greatest number of digests that one passage of a forwarding program could give.
const DIGEST_LIMIT: u32 = 4_096;

/// The forwarding program of a file.
pub fn load_program<S: Store>(
    alloc: Global,
    store: &mut S,
    name: &str,
) -> Result<TypedProgram, Stop>
    ensures follows { Follows (forwarding_program name.now) program_of (S.state store.old) (S.state store.new) result }
{
    let program = load_typed(alloc, store, name)?;
    forwarding(alloc, name, program)
}

/// A program's file, whose program has to break no rule of names and types.
fn load_typed<S: Store>(alloc: Global, store: &mut S, name: &str) -> Result<TypedProgram, Stop>
    ensures follows { Follows (typed_program name.now) program_of (S.state store.old) (S.state store.new) result }
{
    let tree = load_whole(alloc, store, name)?;
    typed(alloc, name, tree)
}

/// A program's file, whose text has to spell a program within the limits.
fn load_whole<S: Store>(alloc: Global, store: &mut S, name: &str) -> Result<Program, Stop>
    ensures follows { Follows (whole_program name.now) program_of (S.state store.old) (S.state store.new) result }
{
    let text = read_file(alloc, store, name, PROGRAM_LIMIT, Area::Program)?;
    spelled(alloc, name, &text)
}

/// The program that a text spells.
fn spelled(alloc: Global, name: &str, text: &[u8]) -> Result<Program, Stop>
    requires { length text.now ≤ 262144 }
    ensures judged { Judged (IsProgram text.now) (IsMisread name.now text.now) program_of result }
{
    match read_program(alloc, text) {
        Ok(program) => Ok(program),
        Err(ProgramFault::NoMemory) => Err(Stop::Starved),
        Err(ProgramFault::Lex(fault)) => Err(Stop::Refused(Refusal {
            status: Status::BadProgram,
            line: lex_text(alloc, Area::Program, name, fault)?,
        })),
        Err(ProgramFault::Syntax { at }) => Err(Stop::Refused(Refusal {
            status: Status::BadProgram,
            line: place_text(alloc, Area::Program, name, "Syntax", at as u64)?,
        })),
        Err(ProgramFault::LeftOut { at, what }) => Err(Stop::Refused(Refusal {
            status: Status::BadProgram,
            line: word_text(alloc, Area::Program, name, "LeftOut", at, what.as_str())?,
        })),
        Err(ProgramFault::TooDeep { at }) => Err(Stop::Refused(Refusal {
            status: Status::BadProgram,
            line: place_text(alloc, Area::Program, name, "TooDeep", at as u64)?,
        })),
    }
}

/// The tree as a typed program.
fn typed(alloc: Global, name: &str, tree: Program) -> Result<TypedProgram, Stop>
    ensures judged { Judged (IsTyped (program_of tree)) (IsIllTyped name.now (program_of tree)) program_of result }
{
    match check_program(alloc, tree) {
        Ok(program) => Ok(program),
        Err(ProgramTypeFault::NoMemory) => Err(Stop::Starved),
        Err(ProgramTypeFault::Type_ { at, rule }) => Err(Stop::Refused(Refusal {
            status: Status::BadProgram,
            line: type_text(alloc, name, at, rule)?,
        })),
    }
}

/// The program, where its headers and digests leave room for a monitor's.
fn forwarding(alloc: Global, name: &str, program: TypedProgram) -> Result<TypedProgram, Stop>
    ensures judged { Judged (IsForwarding (program_of program)) (IsTooLarge name.now (program_of program)) program_of result }
{
    if program.header_bytes() <= HEADER_LIMIT && program.digest_bound() <= DIGEST_LIMIT {
        Ok(program)
    } else {
        Err(Stop::Refused(Refusal {
            status: Status::BadProgram,
            line: cause_text(alloc, Area::Program, name, "Limit")?,
        }))
    }
}
