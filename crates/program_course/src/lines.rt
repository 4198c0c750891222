//! The lines of refused programs.

ghost use Rattle.std.specs.Prelude.{◌≡◌, IfOk, string_bytes};
ghost use Rattle.program_course.specs.Lines as lines;

use job_course::{Area, word_text};
use p4_statement_rules::rule::ProgramRule;
use std::alloc::{AllocError, Global};

fn rule_word(rule: ProgramRule) -> &'static str
    ensures { result.now ≡ lines.rule_word rule }
{
    match rule {
        ProgramRule::NameTwice => "NameTwice",
        ProgramRule::NoSuchName => "NoSuchName",
        ProgramRule::WidthDiffers => "WidthDiffers",
        ProgramRule::KindDiffers => "KindDiffers",
        ProgramRule::NotWritable => "NotWritable",
        ProgramRule::WrongPlace => "WrongPlace",
        ProgramRule::ParserCycle => "ParserCycle",
        ProgramRule::BadSize => "BadSize",
        ProgramRule::BadMain => "BadMain",
        ProgramRule::KeyKinds => "KeyKinds",
        ProgramRule::Limit => "Limit",
    }
}

/// A rule that is broken at a place.
pub(crate) fn type_text(
    alloc: Global,
    name: &str,
    at: u32,
    rule: ProgramRule,
) -> Result<String, AllocError>
    ensures { IfOk result (λ s. string_bytes s ≡ lines.type_line name.now at rule) }
{
    word_text(alloc, Area::Program, name, "Type", at, rule_word(rule))
}
