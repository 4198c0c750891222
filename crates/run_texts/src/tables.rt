//! The text of generated tables.

ghost use Rattle.std.specs.Prelude.{◌≡◌, map, IfOk, string_bytes};
ghost use Rattle.indus_tree.specs.View.{decl_of};
ghost use Rattle.run_texts.specs.Tables.{table_line, tables_lines, variable_name};

use control_tables::ControlMap;
use indus_tree::Decl;
use lex_text::Name;
use std::alloc::{AllocError, Global};

/// The name of the variable of a number; nothing where there is none.
fn variable_name(decls: &[Decl], number: u32) -> &str
    ensures { result.now ≡ variable_name (map decl_of decls.now) number }
{
    match decls.get(number as usize) {
        Some(decl) => decl.name.as_str(),
        None => "",
    }
}

/// The line of a table.
fn table_text(alloc: Global, decls: &[Decl], row: &(Name, Name, u32)) -> Result<String, AllocError>
    ensures { IfOk result (λ s. string_bytes s ≡ table_line (map decl_of decls.now) row.now) }
{
    let control = row.0.as_str();
    let table = row.1.as_str();
    let variable = variable_name(decls, row.2);
    format!(in alloc; "{control}.{table} {variable}\n")
}

/// The tables of a map, a line each. `decls` are the property's declarations.
pub(crate) fn tables_text(
    alloc: Global,
    rows: &ControlMap,
    decls: &[Decl],
) -> Result<String, AllocError>
    ensures { IfOk result (λ s. string_bytes s ≡ tables_lines (map decl_of decls.now) rows.now.tables.items) }
{
    let mut text = String::new(alloc);
    for row in &rows.tables {
        let line = table_text(alloc, decls, row)?;
        text.push_str(line.as_str())?;
    }
    Ok(text)
}
