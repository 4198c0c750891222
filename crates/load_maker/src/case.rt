//! The value of the case file.

ghost use Rattle.std.specs.Prelude.{◌≡◌, ◌<◌, map, IfOk, OnOk, string_bytes};
ghost use Rattle.load_maker.specs.Values as values;
ghost use Rattle.serde_json.specs.Data.{string, put as with_member};
ghost use Rattle.serde_json.specs.View.{view, members_view};

use crate::captures::capture_name;
use crate::fabric::{HOSTS, host_at, leaf_name};
use serde_json::{Map, Value, json, put};
use std::alloc::{AllocError, Global};

/// The name of a file, by its ending.
pub fn file_name(alloc: Global, out: &str, ending: &str) -> Result<String, AllocError>
    ensures { IfOk result (λ s. string_bytes s ≡ values.file_name out.now ending.now) }
{
    format!(in alloc; "{out}.{ending}")
}

/// The case: which files belong together, and where frames enter.
pub fn case_value(alloc: Global, out: &str) -> Result<Value, AllocError>
    ensures { IfOk result (λ v. view v ≡ values.case_data out.now) }
{
    let captures = capture_places(alloc, out)?;
    let mut case = Map::new(alloc);
    put(&mut case, alloc, "captures", Value::Array(captures))?;
    put_name(alloc, &mut case, "control", out, "control.json")?;
    put_name(alloc, &mut case, "entries", out, "entries.json")?;
    put_name(alloc, &mut case, "network", out, "net.json")?;
    put_name(alloc, &mut case, "program", out, "basic.p4")?;
    put_name(alloc, &mut case, "property", out, "path.indus")?;
    Ok(Value::Object(case))
}

/// The name of a file, as a member of the case.
fn put_name(
    alloc: Global,
    case: &mut Map<String, Value>,
    key: &str,
    out: &str,
    ending: &str,
) -> Result<(), AllocError>
    ensures { OnOk result (members_view case.new.entries
        ≡ with_member key.now (string (values.file_name out.now ending.now)) (members_view case.old.entries)) }
{
    let name = file_name(alloc, out, ending)?;
    put(case, alloc, key, Value::String(name))
}

/// The captures of all hosts, each with the place at which its frames enter.
#[tactic(auto, unfolding(crate::specs::Values::capture_places))]
fn capture_places(alloc: Global, out: &str) -> Result<Vec<Value>, AllocError>
    ensures { IfOk result (λ v. map view v.items ≡ values.capture_places out.now) }
{
    let mut places = Vec::new(alloc);
    for number in 0..HOSTS {
        places.push(capture_place(alloc, out, number)?)?;
    }
    Ok(places)
}

fn capture_place(alloc: Global, out: &str, number: u8) -> Result<Value, AllocError>
    requires { number < 16 }
    ensures { IfOk result (λ v. view v ≡ values.capture_place out.now number) }
{
    let host = host_at(number);
    let file = capture_name(alloc, out, number)?;
    let leaf = leaf_name(alloc, host.leaf)?;
    json!(in alloc; {"file": file, "port": host.port, "switch": leaf})
}
