//! Rows as texts.

ghost use Rattle.std.specs.Prelude.{◌≡◌, ◌++◌, map, IfOk, OnOk, string_bytes};
ghost use Rattle.std.specs.List.{flat_map};
ghost use Rattle.report_writer.specs.Texts.{value_text, report_line, cell_line, reports_of, cells_of, losses_of, summary_of};
ghost use Rattle.report_writer.specs.Views.{report_of, cell_of, counts_of};

use crate::rows::{CellRow, Counts, ReportRow};
use bit_values::Bits;
use std::alloc::{AllocError, Global};
use std::fmt::Write;

/// Each value behind a space, in decimal.
fn put_values(out: &mut String, values: &[Bits]) -> Result<(), AllocError>
    ensures { OnOk result (string_bytes out.new
        ≡ string_bytes out.old ++ flat_map value_text values.now) }
{
    for v in values {
        write!(out, " {}", v.value)?;
    }
    Ok(())
}

/// One line of a text of reports.
fn report_line(alloc: Global, row: &ReportRow<'_>) -> Result<String, AllocError>
    ensures { IfOk result (λ s. string_bytes s ≡ report_line (report_of row.now)) }
{
    let packet = row.packet;
    let switch = row.switch;
    let number = row.number;
    let mut line = format!(in alloc; "{packet} {switch} {number}")?;
    put_values(&mut line, row.values)?;
    line.push_str("\n")?;
    Ok(line)
}

/// One line of a text of cells.
fn cell_line(alloc: Global, row: &CellRow<'_>) -> Result<String, AllocError>
    ensures { IfOk result (λ s. string_bytes s ≡ cell_line (cell_of row.now)) }
{
    let switch = row.switch;
    let register = row.register;
    let index = row.index;
    let value = row.value.value;
    format!(in alloc; "{switch} {register} {index} {value}\n")
}

/// The text of reports or digests: a line each, in their order.
pub fn reports_text(alloc: Global, rows: &[ReportRow<'_>]) -> Result<String, AllocError>
    ensures { IfOk result (λ s. string_bytes s ≡ reports_of (map report_of rows.now)) }
{
    let mut out = String::new(alloc);
    for row in rows {
        let line = report_line(alloc, row)?;
        out.push_str(line.as_str())?;
    }
    Ok(out)
}

/// The text of cells: a line each, in their order.
pub fn cells_text(alloc: Global, rows: &[CellRow<'_>]) -> Result<String, AllocError>
    ensures { IfOk result (λ s. string_bytes s ≡ cells_of (map cell_of rows.now)) }
{
    let mut out = String::new(alloc);
    for row in rows {
        let line = cell_line(alloc, row)?;
        out.push_str(line.as_str())?;
    }
    Ok(out)
}

/// The last three lines of a summary.
fn losses_text(alloc: Global, counts: Counts) -> Result<String, AllocError>
    ensures { IfOk result (λ s. string_bytes s ≡ losses_of (counts_of counts)) }
{
    let Counts {
        rejected,
        lost,
        reports,
        ..
    } = counts;
    format!(in alloc; "rejected {rejected}\nlost {lost}\nreports {reports}\n")
}

/// The six lines of a summary.
pub fn summary_text(alloc: Global, counts: Counts) -> Result<String, AllocError>
    ensures { IfOk result (λ s. string_bytes s ≡ summary_of (counts_of counts)) }
{
    let Counts {
        packets,
        sent,
        dropped,
        ..
    } = counts;
    let losses = losses_text(alloc, counts)?;
    format!(in alloc; "packets {packets}\nsent {sent}\ndropped {dropped}\n{losses}")
}
