//! The lines of refusals that several commands have.

ghost use Rattle.std.specs.Prelude.{◌≡◌, IfOk, string_bytes};
ghost use Rattle.job_course.specs.Lines as lines;

use crate::status::Area;
use lex_text::LexFault;
use std::alloc::{AllocError, Global};

/// A file with a cause that has no more to say.
pub fn cause_text(alloc: Global, area: Area, name: &str, cause: &str) -> Result<String, AllocError>
    ensures { IfOk result (λ s. string_bytes s ≡ lines.cause_line area name.now cause.now) }
{
    let word = area.word();
    format!(in alloc; "hydra: {word} {name} {cause}\n")
}

/// A file with a cause and the number of its place.
pub fn place_text(
    alloc: Global,
    area: Area,
    name: &str,
    cause: &str,
    at: u64,
) -> Result<String, AllocError>
    ensures { IfOk result (λ s. string_bytes s ≡ lines.place_line area name.now cause.now at) }
{
    let word = area.word();
    format!(in alloc; "hydra: {word} {name} {cause} {at}\n")
}

/// A file with a cause, the number of its place, and a word for what stands there.
pub fn word_text(
    alloc: Global,
    area: Area,
    name: &str,
    cause: &str,
    at: u32,
    what: &str,
) -> Result<String, AllocError>
    ensures { IfOk result (λ s. string_bytes s
        ≡ lines.word_line area name.now cause.now at what.now) }
{
    let word = area.word();
    format!(in alloc; "hydra: {word} {name} {cause} {at} {what}\n")
}

/// A file whose text has no tokens.
pub fn lex_text(
    alloc: Global,
    area: Area,
    name: &str,
    fault: LexFault,
) -> Result<String, AllocError>
    ensures { IfOk result (λ s. string_bytes s ≡ lines.lex_line area name.now fault) }
{
    let word = area.word();
    let (cause, at) = (lex_word(fault), lex_place(fault));
    format!(in alloc; "hydra: {word} {name} Lex {cause} {at}\n")
}

fn lex_word(fault: LexFault) -> &'static str
    ensures { result.now ≡ lines.lex_word fault }
{
    match fault {
        LexFault::NotUtf8 { .. } => "NotUtf8",
        LexFault::BadChar { .. } => "BadChar",
        LexFault::OpenComment { .. } => "OpenComment",
        LexFault::NumberTooWide { .. } => "NumberTooWide",
        LexFault::OpenText { .. } => "OpenText",
        LexFault::NoMemory => "",
    }
}

fn lex_place(fault: LexFault) -> u32
    ensures { result ≡ lines.lex_place fault }
{
    match fault {
        LexFault::NotUtf8 { at }
        | LexFault::BadChar { at }
        | LexFault::OpenComment { at }
        | LexFault::NumberTooWide { at }
        | LexFault::OpenText { at } => at,
        LexFault::NoMemory => 0,
    }
}
