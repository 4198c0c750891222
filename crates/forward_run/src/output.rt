//! What is written of a run.

ghost use Rattle.std.specs.Prelude.{◌≡◌, ◌≤◌, length, map, IfOk, string_bytes};
ghost use Rattle.p4_tree.specs.View.{program_of};
ghost use Rattle.job_course.specs.Output.{out_of};
ghost use Rattle.report_writer.specs.Texts.{summary_of};
ghost use Rattle.run_captures.specs.Views.{time_view};
ghost use Rattle.forward_run.specs.Files.{IsForwardOutput};
ghost use Rattle.forward_run.specs.Job.{Job};
ghost use Rattle.forward_run.specs.Switches.{IsEnd, IsEndOf};
ghost use Rattle.forward_texts.specs.Switches.{log_view};

use forward_texts::{digests_text, put_text, registers_text};
use job_course::Output;
use p4_machine::Pass;
use p4_types::TypedProgram;
use path_runner::RunLog;
use report_writer::{Counts, summary_text};
use run_captures::{Front, Time, put_captures};
use std::alloc::{AllocError, Global};

/// What is written of a run: the captures, the digests, the registers and the summary.
pub(crate) fn output_of<P: Pass>(
    alloc: Global,
    program: &TypedProgram,
    times: &[Time],
    packets: u32,
    out: &str,
    log: &RunLog<P>,
) -> Result<Output, AllocError>
    requires { IsEnd (program_of program.now) (log_view P.program P.tables P.cells log.now) }
    ensures { IfOk result (λ o. (j : Job) → IsEndOf j (log_view P.program P.tables P.cells log.now) → j.program ≡ program_of program.now
        → j.times ≡ map time_view times.now → length j.packets ≡ packets → IsForwardOutput j out.now (out_of o)) }
{
    let mut files = Vec::new(alloc);
    let front = Front { out, kind: "out" };
    put_captures(alloc, &mut files, &front, &log.net, times, &log.edges)?;
    let digests = digests_text(alloc, &log.net, &log.told)?;
    put_text(alloc, &mut files, out, ".digests.txt", digests)?;
    let registers = registers_text(alloc, program, &log.net, &log.switches)?;
    put_text(alloc, &mut files, out, ".registers.txt", registers)?;
    let text = summary(alloc, packets, log)?;
    let copy = String::from_str(alloc, text.as_str())?;
    put_text(alloc, &mut files, out, ".summary.txt", copy)?;
    Ok(Output { files, text })
}

/// The six lines of the summary. No packet is rejected, and nothing is reported.
fn summary<P>(alloc: Global, packets: u32, log: &RunLog<P>) -> Result<String, AllocError>
    requires { length log.now.edges.items ≤ 100000 }
    ensures { IfOk result (λ s. string_bytes s ≡ summary_of (record {
      packets = packets;
      sent = length log.now.edges.items;
      dropped = log.now.dropped;
      rejected = 0;
      lost = log.now.lost;
      reports = 0;
    })) }
{
    let counts = Counts {
        packets,
        sent: log.edges.len() as u32,
        dropped: log.dropped,
        rejected: 0,
        lost: log.lost,
        reports: 0,
    };
    summary_text(alloc, counts)
}
