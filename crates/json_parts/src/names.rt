//! The names of members.

ghost use Rattle.std.specs.Prelude.{◌≡◌, map, option_map, string_bytes};
ghost use Rattle.std.specs.BTreeMap.{keys};
ghost use Rattle.json_parts.specs.Object.{is_known, first_unknown};
ghost use Rattle.json_parts.specs.Views.{texts};

use serde_json::{Map, Value};

fn is_known(names: &[&str], key: &str) -> bool
    ensures { result ≡ is_known (texts names.now) key.now }
{
    for name in names {
        if key == *name {
            return true;
        }
    }
    false
}

/// The first member, in byte order, that is none of the names.
pub fn first_unknown<'a>(names: &[&str], object: &'a Map<String, Value>) -> Option<&'a str>
    ensures { option_map (λ s. s.now) result
        ≡ first_unknown (texts names.now) (map string_bytes (keys object.now)) }
{
    for key in object.keys() {
        let key = key.as_str();
        if !is_known(names, key) {
            return Some(key);
        }
    }
    None
}
