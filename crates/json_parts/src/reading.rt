//! Bytes as a value.

ghost use Rattle.std.specs.Prelude.{◌≡◌, IfOk};
ghost use Rattle.serde_json.specs.Data.{Data};
ghost use Rattle.serde_json.specs.View.{view};
ghost use Rattle.json_parts.specs.Json.{IsJson, IsReading};

use crate::fault::JsonFault;
use serde_json::Value;
use std::alloc::Global;

/// The value that the bytes are.
///
/// # Errors
///
/// `Json` exactly where they are none, or one that is nested more than 127 deep; else `NoMemory`
/// alone, where memory runs out.
pub fn read_value(alloc: Global, bytes: &[u8]) -> Result<Value, JsonFault>
    ensures found { IfOk result (λ value. IsJson bytes.now (view value)) }
    ensures only { (d : Data) → IsJson bytes.now d → IsReading d result }
{
    match Value::from_slice(alloc, bytes) {
        Ok(value) => Ok(value),
        Err(refused) => {
            if refused.is_memory() {
                Err(JsonFault::NoMemory)
            } else {
                Err(JsonFault::Json)
            }
        }
    }
}
