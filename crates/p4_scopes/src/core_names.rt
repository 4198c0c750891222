//! Names of the architecture's own.

ghost use Rattle.std.specs.Prelude.{◌≡◌, ◌∷◌};
ghost use Rattle.lex_text.specs.Names.{same_text};
ghost use Rattle.p4_scopes.specs.Scopes.{core, core_field, core_name};
ghost use Rattle.p4_scopes.specs.View.{stands_of};
ghost use Rattle.p4_scopes.specs.Resolving.{core_resolved, standard_field};

use crate::kind::Kind;
use crate::resolved::Resolved;
use crate::stands::Stands;
use crate::thing::{Function, Thing};
use lex_text::Name;

/// Whether a name has this text.
fn is(name: &Name, text: &str) -> bool
    ensures { result ≡ same_text name.now text.now }
{
    name.as_str() == text
}

/// A field of the standard metadata.
pub(crate) fn standard_field(x: &Name) -> Resolved
    ensures { result ≡ standard_field x.now }
{
    if is(x, "egress_spec") {
        Resolved::Single(false, Thing::Scalar(Kind::Number(9)))
    } else if is(x, "ingress_port") || is(x, "egress_port") {
        Resolved::Single(true, Thing::Scalar(Kind::Number(9)))
    } else if is(x, "packet_length") {
        Resolved::Single(true, Thing::Scalar(Kind::Number(32)))
    } else if is(x, "checksum_error") {
        Resolved::Single(true, Thing::Scalar(Kind::Number(1)))
    } else if is(x, "parser_error") {
        Resolved::Single(true, Thing::Scalar(Kind::Error))
    } else {
        Resolved::Missing
    }
}

/// A type of the architecture's own.
pub(crate) fn core_resolved(x: &Name) -> Resolved
    ensures { result ≡ core_resolved x.now }
{
    if is(x, "standard_metadata_t") {
        Resolved::Standard
    } else if is(x, "packet_in") {
        Resolved::Single(false, Thing::PacketIn)
    } else if is(x, "packet_out") {
        Resolved::Single(false, Thing::PacketOut)
    } else {
        Resolved::Missing
    }
}

fn core_name<'s>(x: &Name) -> Stands<'s>
    ensures { stands_of result ≡ core_name x.now }
{
    if is(x, "standard_metadata_t") {
        Stands::Typed(false, Thing::Standard)
    } else if is(x, "packet_in") {
        Stands::Typed(false, Thing::PacketIn)
    } else if is(x, "packet_out") {
        Stands::Typed(false, Thing::PacketOut)
    } else if is(x, "NoAction") {
        Stands::Act(&[], 0)
    } else if is(x, "mark_to_drop") {
        Stands::Function(Function::MarkToDrop)
    } else if is(x, "digest") {
        Stands::Function(Function::Digest)
    } else if is(x, "verify_checksum") {
        Stands::Function(Function::VerifyChecksum)
    } else if is(x, "update_checksum") {
        Stands::Function(Function::UpdateChecksum)
    } else if is(x, "HashAlgorithm") {
        Stands::Other
    } else {
        Stands::Missing
    }
}

fn core_field<'s>(x: &Name, y: &Name) -> Stands<'s>
    ensures { stands_of result ≡ core_field x.now y.now }
{
    if is(x, "standard_metadata_t") {
        standard_field(y).stands()
    } else if is(x, "HashAlgorithm") && is(y, "csum16") {
        Stands::Algorithm
    } else {
        Stands::Missing
    }
}

/// What a path of a name and those behind it stands for before the first declaration.
#[tactic(auto, unfolding(crate::specs::Scopes::core))]
pub(crate) fn core<'s>(x: &Name, rest: &[Name]) -> Stands<'s>
    ensures { stands_of result ≡ core (x.now ∷ rest.now) }
{
    match rest {
        [] => core_name(x),
        [y, more @ ..] => match more {
            [] => core_field(x, y),
            [_z, _zs @ ..] => Stands::Missing,
        },
    }
}
