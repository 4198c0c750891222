//! A value as a list or as an object.

ghost use Rattle.std.specs.Prelude.{◌≡◌, map, option_map};
ghost use Rattle.serde_json.specs.View.{view};
ghost use Rattle.json_parts.specs.Trees.{as_list, as_fields};
ghost use Rattle.json_parts.specs.Views.{fields};

use serde_json::{Map, Value};

/// The elements of an array.
#[tactic(auto, using(crate::proofs::TreeLemmas::listed))]
pub fn list_of(value: &Value) -> Option<&[Value]>
    ensures { option_map (λ list. map view list.now) result ≡ as_list (view value.now) }
{
    Some(value.as_array()?.as_slice())
}

/// An object's members, in the byte order of their names.
#[tactic(auto, using(crate::proofs::TreeLemmas::fielded))]
pub fn object_of(value: &Value) -> Option<&Map<String, Value>>
    ensures { option_map (λ object. fields object.now.entries) result ≡ as_fields (view value.now) }
{
    value.as_object()
}
