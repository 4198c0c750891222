//! The files that stand before the captures.

ghost use Rattle.std.specs.Prelude.{◌≡◌, ◌++◌, ◌∷◌, [], IfOk, OnOk};
ghost use Rattle.job_course.specs.Output.{files_of};
ghost use Rattle.json_parts.specs.Json.{IsJson};
ghost use Rattle.load_maker.specs.Made as made;
ghost use Rattle.load_maker.specs.Plain.{IsPlain};
ghost use Rattle.load_maker.specs.Values as values;
ghost use Rattle.serde_json.specs.View.{view};
ghost use Rattle.serde_json.specs.Written.{compact_text};

use crate::case::{case_value, file_name};
use crate::control::control_value;
use crate::entries::entries_value;
use crate::network::network_value;
use crate::texts::{program_text, property_text};
use serde_json::Value;
use std::alloc::{AllocError, Global};

/// The text of a value.
fn json_text(alloc: Global, value: &Value) -> Result<Vec<u8>, AllocError>
    requires { IsPlain (view value.now) }
    ensures text { IfOk result (λ b. b.items ≡ compact_text (view value.now)) }
    ensures json { OnOk result (IsJson (compact_text (view value.now)) (view value.now)) }
{
    value.to_vec(alloc)
}

fn case_text(alloc: Global, out: &str) -> Result<Vec<u8>, AllocError>
    ensures text { IfOk result (λ b. b.items ≡ made.case_text out.now) }
    ensures json { OnOk result (IsJson (made.case_text out.now) (values.case_data out.now)) }
{
    let case = case_value(alloc, out)?;
    json_text(alloc, &case)
}

fn network_text(alloc: Global) -> Result<Vec<u8>, AllocError>
    ensures { IfOk result (λ b. b.items ≡ compact_text values.network_data) }
{
    let network = network_value(alloc)?;
    json_text(alloc, &network)
}

fn entries_text(alloc: Global) -> Result<Vec<u8>, AllocError>
    ensures { IfOk result (λ b. b.items ≡ compact_text values.entries_data) }
{
    let entries = entries_value(alloc)?;
    json_text(alloc, &entries)
}

fn control_text(alloc: Global) -> Result<Vec<u8>, AllocError>
    ensures { IfOk result (λ b. b.items ≡ compact_text values.control_data) }
{
    let control = control_value(alloc)?;
    json_text(alloc, &control)
}

/// A file goes behind the others.
fn put_file(
    alloc: Global,
    files: &mut Vec<(String, Vec<u8>)>,
    out: &str,
    ending: &str,
    bytes: Vec<u8>,
) -> Result<(), AllocError>
    ensures { OnOk result (files_of files.new.items
        ≡ files_of files.old.items ++ (values.file_name out.now ending.now, bytes.items) ∷ []) }
{
    let name = file_name(alloc, out, ending)?;
    files.push((name, bytes))?;
    Ok(())
}

/// A text goes behind the others.
fn put_text(
    alloc: Global,
    files: &mut Vec<(String, Vec<u8>)>,
    out: &str,
    ending: &str,
    text: &str,
) -> Result<(), AllocError>
    ensures { OnOk result (files_of files.new.items
        ≡ files_of files.old.items ++ (values.file_name out.now ending.now, text.now) ∷ []) }
{
    let bytes = Vec::from_slice(alloc, text.as_bytes())?;
    put_file(alloc, files, out, ending, bytes)
}

/// The files that stand before the captures.
pub fn case_files(alloc: Global, out: &str) -> Result<Vec<(String, Vec<u8>)>, AllocError>
    ensures files { IfOk result (λ files. files_of files.items ≡ made.case_files out.now) }
    ensures case { OnOk result (IsJson (made.case_text out.now) (values.case_data out.now)) }
{
    let mut files = Vec::new(alloc);
    put_file(alloc, &mut files, out, "case.json", case_text(alloc, out)?)?;
    put_file(alloc, &mut files, out, "net.json", network_text(alloc)?)?;
    put_text(alloc, &mut files, out, "basic.p4", program_text())?;
    put_text(alloc, &mut files, out, "path.indus", property_text())?;
    put_file(alloc, &mut files, out, "entries.json", entries_text(alloc)?)?;
    put_file(alloc, &mut files, out, "control.json", control_text(alloc)?)?;
    Ok(files)
}
