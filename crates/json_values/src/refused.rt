//! Faults at a path, and values as arrays and objects.

ghost use Rattle.std.specs.Prelude.{◌≡◌, map};
ghost use Rattle.serde_json.specs.View.{view};
ghost use Rattle.table_faults.specs.declared.table.TableFault.TheVariants.{NoMemory, Shape, Value as BadValue};
ghost use Rattle.json_parts.specs.Views.{fields};
ghost use Rattle.json_values.specs.Words.{list_at, object_at};
ghost use Rattle.json_values.specs.Views.{Gives};

use json_parts::{list_of, object_of};
use lex_text::Name;
use serde_json::{Map, Value};
use std::alloc::Global;
use table_faults::TableFault;

/// What is at the path is unknown, missing or ill-formed.
pub fn shape_refused(alloc: Global, path: &str) -> TableFault
    ensures { (result ≡ NoMemory → ⊥) → result ≡ Shape path.now }
{
    match Name::new(alloc, path) {
        Ok(path) => TableFault::Shape { path },
        Err(_) => TableFault::NoMemory,
    }
}

/// What is at the path is no word of its place.
pub fn value_refused(alloc: Global, path: &str) -> TableFault
    ensures { (result ≡ NoMemory → ⊥) → result ≡ BadValue path.now }
{
    match Name::new(alloc, path) {
        Ok(path) => TableFault::Value { path },
        Err(_) => TableFault::NoMemory,
    }
}

/// The elements of the array at the path; any other value is `Shape`.
pub fn list_at<'a>(alloc: Global, path: &str, value: &'a Value) -> Result<&'a [Value], TableFault>
    ensures { Gives (λ list. map view list.now) result (list_at path.now (view value.now)) }
{
    match list_of(value) {
        Some(list) => Ok(list),
        None => Err(shape_refused(alloc, path)),
    }
}

/// The members of the object at the path; any other value is `Shape`.
pub fn object_at<'a>(
    alloc: Global,
    path: &str,
    value: &'a Value,
) -> Result<&'a Map<String, Value>, TableFault>
    ensures { Gives (λ object. fields object.now.entries) result
        (object_at path.now (view value.now)) }
{
    match object_of(value) {
        Some(object) => Ok(object),
        None => Err(shape_refused(alloc, path)),
    }
}
