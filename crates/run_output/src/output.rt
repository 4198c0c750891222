//! What is written of a run.

ghost use Rattle.std.specs.Prelude.{◌≡◌, ◌≤◌, ◌++◌, ◌∷◌, [], ℕ, codes, length, map, All, IfOk, OnOk, string_bytes};
ghost use Rattle.bit_values.specs.Bits.{cast};
ghost use Rattle.indus_tree.specs.View.{decl_of};
ghost use Rattle.p4_tree.specs.View.{program_of};
ghost use Rattle.p4_meaning.specs.Pass.{Kept};
ghost use Rattle.p4_printer.specs.CanSpell.{CanSpell};
ghost use Rattle.job_course.specs.Output.{files_of, out_of};
ghost use Rattle.path_runner.specs.Conditions.{most_packets};
ghost use Rattle.path_runner.specs.Packets.{sent_of, told_of};
ghost use Rattle.run_captures.specs.Views.{time_view};
ghost use Rattle.report_writer.specs.Texts.{summary_of};
ghost use Rattle.forward_texts.specs.Switches.{KeepAll, log_view};
ghost use Rattle.run_texts.specs.Files.{linked_files, sent_files};
ghost use Rattle.run_texts.specs.Registers.{programs_in, rejected_from};
ghost use Rattle.run_texts.specs.Told.{digests_lines, reports_lines};
ghost use Rattle.run_output.specs.Counted.{counts_in};
ghost use Rattle.run_output.specs.Ends.{IsEnd, IsOutput, IsShort};
ghost use Rattle.run_output.specs.Views.{parts_view};
ghost use Rattle.path_runner.specs.Switches.{switch_of};

use control_tables::ControlMap;
use forward_texts::put_text;
use indus_tree::Decl;
use job_course::Output;
use network_file::Network;
use p4_machine::Pass;
use p4_types::TypedProgram;
use path_runner::RunLog;
use report_writer::{Counts, summary_text};
use run_captures::{Front, Time, put_captures};
use run_texts::{digests_text, put_linked, registers_text, rejected, reports, reports_text};
use std::alloc::{AllocError, Global};

/// What was run: the programs of the switches, in the network's order; the rows of the map of their
/// generated tables, with the property's declarations; how many packets, and when each was captured.
#[derive(Clone, Copy)]
pub struct RunParts<'a> {
    pub programs: &'a [TypedProgram],
    pub rows: &'a ControlMap,
    pub decls: &'a [Decl],
    pub times: &'a [Time],
    pub packets: u32,
}

/// What is written of a run: the files in order, and the summary for the sink.
///
/// # Errors
///
/// `AllocError` where memory runs out.
pub fn output_of<P: Pass>(
    alloc: Global,
    parts: &RunParts<'_>,
    out: &str,
    log: &RunLog<P>,
) -> Result<Output, AllocError>
    requires end { IsEnd (parts_view parts.now).programs (log_view P.program P.tables P.cells log.now) }
    requires spelled { All (λ t. CanSpell (program_of t)) parts.now.programs.now }
    ensures { IfOk result (λ o. IsOutput out.now (parts_view parts.now) (log_view P.program P.tables P.cells log.now) (out_of o)) }
{
    let mut files = Vec::new(alloc);
    put_linked(
        alloc,
        &mut files,
        out,
        &log.net,
        parts.programs,
        parts.rows,
        parts.decls,
    )?;
    put_sent(alloc, &mut files, parts, out, log)?;
    put_told(alloc, &mut files, out, log)?;
    let registers = registers_text(alloc, &log.net, parts.programs, &log.switches)?;
    put_text(alloc, &mut files, out, ".registers.txt", registers)?;
    let text = summary(alloc, parts, log)?;
    let copy = String::from_str(alloc, text.as_str())?;
    put_text(alloc, &mut files, out, ".summary.txt", copy)?;
    Ok(Output { files, text })
}

/// The captures of the frames on links, and of those that left.
fn put_sent<P>(
    alloc: Global,
    files: &mut Vec<(String, Vec<u8>)>,
    parts: &RunParts<'_>,
    out: &str,
    log: &RunLog<P>,
) -> Result<(), AllocError>
    requires wires { All IsShort (map sent_of log.now.wires.items) }
    requires edges { All IsShort (map sent_of log.now.edges.items) }
    ensures { OnOk result (files_of files.new.items ≡ files_of files.old.items
        ++ (sent_files out.now (codes "wire") (parts_view parts.now).times (map sent_of log.now.wires.items) log.now.net.names
        ++ sent_files out.now (codes "out") (parts_view parts.now).times (map sent_of log.now.edges.items) log.now.net.names)) }
{
    let wire = Front { out, kind: "wire" };
    put_captures(alloc, files, &wire, &log.net, parts.times, &log.wires)?;
    let edge = Front { out, kind: "out" };
    put_captures(alloc, files, &edge, &log.net, parts.times, &log.edges)?;
    Ok(())
}

/// The files of reports and of the other digests.
fn put_told<P>(
    alloc: Global,
    files: &mut Vec<(String, Vec<u8>)>,
    out: &str,
    log: &RunLog<P>,
) -> Result<(), AllocError>
    ensures { OnOk result (files_of files.new.items ≡ files_of files.old.items
        ++ (out.now ++ codes ".reports.txt", reports_lines log.now.net.names (map told_of log.now.told.items))
        ∷ (out.now ++ codes ".digests.txt", digests_lines log.now.net.names (map told_of log.now.told.items)) ∷ []) }
{
    let reports = reports_text(alloc, &log.net, &log.told)?;
    put_text(alloc, files, out, ".reports.txt", reports)?;
    let digests = digests_text(alloc, &log.net, &log.told)?;
    put_text(alloc, files, out, ".digests.txt", digests)?;
    Ok(())
}

/// The six lines of the summary. Dropped are those that were not rejected.
pub(crate) fn summary<P: Pass>(
    alloc: Global,
    parts: &RunParts<'_>,
    log: &RunLog<P>,
) -> Result<String, AllocError>
    requires count { length log.now.switches.items ≡ length log.now.net.names }
    requires programs { programs_in (map (switch_of P.program P.tables P.cells) log.now.switches.items) ≡ (parts_view parts.now).programs }
    requires few { length log.now.edges.items ≤ most_packets }
    ensures { IfOk result (λ s. (keeps : ℕ → Kept) → KeepAll keeps (map (switch_of P.program P.tables P.cells) log.now.switches.items)
        → string_bytes s ≡ summary_of (counts_in parts.now.packets
        (cast 32 (rejected_from (parts_view parts.now).programs keeps 0)) (log_view P.program P.tables P.cells log.now).traffic)) }
{
    let all = rejected(alloc, &log.net, parts.programs, &log.switches)?;
    let rejected = (all % 4_294_967_296) as u32;
    let sent = log.edges.len() as u32;
    let dropped = log.dropped.saturating_sub(rejected);
    let reports = reports(&log.told);
    let counts = Counts {
        packets: parts.packets,
        sent,
        dropped,
        rejected,
        lost: log.lost,
        reports,
    };
    let text = summary_text(alloc, counts)?;
    Ok(text)
}
