//! The file of a property, read step by step.

ghost use Rattle.std.specs.Prelude.{◌≡◌, ◌≤◌, length, IfOk};
ghost use Rattle.indus_tree.specs.View.{property_of};
ghost use Rattle.indus_reader.specs.Faults.{IsProperty};
ghost use Rattle.indus_rules.specs.Rules.{IsWellTyped};
ghost use Rattle.job_course.specs.Steps.{Follows, Judged};
ghost use Rattle.property_course.specs.Files.{IsIllTyped, IsMisread, IsOfText, IsTyped, typed_property, whole_property};
ghost use Rattle.property_course.specs.Lines as lines;

use indus_reader::{PropertyFault, read_property};
use indus_tree::Property;
use indus_types::{Rule, TypeFault, TypedProperty, check_property};
use job_course::{Area, Refusal, Status, Stop, lex_text, place_text, read_file, word_text};
use outside::Store;
use std::alloc::Global;

/// The greatest length of a property's file, in bytes.
const PROPERTY_LIMIT: u64 = 65536;

/// A property's file, whose property has to break no rule of types.
pub fn load_property<S: Store>(
    alloc: Global,
    store: &mut S,
    name: &str,
) -> Result<TypedProperty, Stop>
    ensures follows { Follows (typed_property name.now) property_of (S.state store.old) (S.state store.new) result }
    ensures typed { IfOk result (λ t. IsWellTyped (property_of t)) }
    ensures read { IfOk result (λ t. IsOfText (property_of t)) }
{
    let tree = load_whole(alloc, store, name)?;
    typed(alloc, name, tree)
}

/// A property's file, whose text has to spell a property within the limits.
fn load_whole<S: Store>(alloc: Global, store: &mut S, name: &str) -> Result<Property, Stop>
    ensures follows { Follows (whole_property name.now) property_of (S.state store.old) (S.state store.new) result }
{
    let text = read_file(alloc, store, name, PROPERTY_LIMIT, Area::Property)?;
    spelled(alloc, name, &text)
}

/// The property that a text spells.
fn spelled(alloc: Global, name: &str, text: &Vec<u8>) -> Result<Property, Stop>
    requires { length text.now.items ≤ 65536 }
    ensures judged { Judged (IsProperty text.now.items) (IsMisread name.now text.now.items) property_of result }
{
    match read_property(alloc, text) {
        Ok(property) => Ok(property),
        Err(PropertyFault::NoMemory) => Err(Stop::Starved),
        Err(PropertyFault::Lex(fault)) => Err(Stop::Refused(Refusal {
            status: Status::BadProperty,
            line: lex_text(alloc, Area::Property, name, fault)?,
        })),
        Err(PropertyFault::Syntax { at }) => Err(Stop::Refused(Refusal {
            status: Status::BadProperty,
            line: place_text(alloc, Area::Property, name, "Syntax", at as u64)?,
        })),
        Err(PropertyFault::TooDeep { at }) => Err(Stop::Refused(Refusal {
            status: Status::BadProperty,
            line: place_text(alloc, Area::Property, name, "TooDeep", at as u64)?,
        })),
    }
}

/// The tree as a typed property.
fn typed(alloc: Global, name: &str, tree: Property) -> Result<TypedProperty, Stop>
    ensures judged { Judged (IsTyped (property_of tree)) (IsIllTyped name.now (property_of tree)) property_of result }
    ensures typed { IfOk result (λ t. IsWellTyped (property_of t)) }
{
    match check_property(alloc, tree) {
        Ok(property) => Ok(property),
        Err(TypeFault::NoMemory) => Err(Stop::Starved),
        Err(TypeFault::Type_ { place, rule }) => Err(Stop::Refused(Refusal {
            status: Status::BadProperty,
            line: word_text(alloc, Area::Property, name, "Type", place, rule_word(rule))?,
        })),
    }
}

// ---- lines

fn rule_word(rule: Rule) -> &'static str
    ensures { result.now ≡ lines.rule_word rule }
{
    match rule {
        Rule::NameTwice => "NameTwice",
        Rule::NoSuchName => "NoSuchName",
        Rule::WidthDiffers => "WidthDiffers",
        Rule::KindDiffers => "KindDiffers",
        Rule::NotWritable => "NotWritable",
        Rule::WrongBlock => "WrongBlock",
        Rule::LoopListChanged => "LoopListChanged",
        Rule::BadSize => "BadSize",
    }
}
