//! A run up to its end.

ghost use Rattle.std.specs.Prelude.{◌≡◌, length, map, All, IfOk, OnOk};
ghost use Rattle.p4_tree.specs.View.{program_of};
ghost use Rattle.p4_printer.specs.CanSpell.{CanSpell};
ghost use Rattle.network_file.specs.Events.{event_of};
ghost use Rattle.path_runner.specs.Nets.{IsSame, RunsTo, tables_of};
ghost use Rattle.path_runner.specs.Views.{state_of};
ghost use Rattle.forward_texts.specs.Switches.{log_view};
ghost use Rattle.run_output.specs.Views.{parts_view};
ghost use Rattle.linked_jobs.specs.Views.{IsSimplerJob, job_of};
ghost use Rattle.linked_run.specs.Happening.{CanHappen};
ghost use Rattle.linked_run.specs.Finished.{IsFinished};
ghost use Rattle.linked_run.specs.Views.{parts_in};

use control_tables::ControlMap;
use event_room::jobs_have_room;
use indus_types::TypedProperty;
use linked_jobs::LinkedJob;
use linked_net::{Started, start};
use network_file::Event;
use p4_machine::Pass;
use p4_types::TypedProgram;
use path_runner::{Net, RunLog};
use run_captures::Time;
use run_headline::linked_programs_keep_the_claims;
use run_output::RunParts;
use std::alloc::{AllocError, Global};
use switch_benches::Bench;

/// A run at its end: what was run, with the property, and its log.
#[derive(Drop)]
pub(crate) struct Finished<P> {
    pub programs: Vec<TypedProgram>,
    pub map: ControlMap,
    pub property: TypedProperty,
    pub times: Vec<Time>,
    pub packets: u32,
    pub log: RunLog<P>,
}

impl<P> Finished<P> {
    /// What was run.
    pub(crate) fn parts(&self) -> RunParts<'_>
        ensures parts { parts_view result ≡ parts_in self.now }
        ensures programs { result.programs.now ≡ self.now.programs.items }
    {
        RunParts {
            programs: &self.programs,
            rows: &self.map,
            decls: &self.property.property().decls,
            times: &self.times,
            packets: self.packets,
        }
    }
}

/// Runs the linked programs of a job at the switches, from the first event of the schedule to the end of
/// each packet.
pub(crate) fn run_to_end<B: Bench>(
    alloc: Global,
    bench: &mut B,
    job: LinkedJob,
) -> Result<Finished<B::Unit>, AllocError>
    requires { IsSimplerJob job }
    ensures finished { IfOk result (λ f. IsFinished (job_of job) (parts_in f) (log_view B.Unit.program B.Unit.tables B.Unit.cells f.log)) }
    ensures spelled { IfOk result (λ f. All (λ t. CanSpell (program_of t)) f.programs.items) }
{
    linked_programs_keep_the_claims();
    jobs_have_room();
    let programs = copies(alloc, &job.linked.programs)?;
    let Started {
        mut net,
        property,
        map,
        times,
        events,
        packets,
        ..
    } = start(alloc, bench, job)?;
    happen(alloc, &mut net, &events)?;
    let log = net.finish(alloc)?;
    Ok(Finished {
        programs,
        map,
        property,
        times,
        packets,
        log,
    })
}

/// The same programs once more, which are printed while the switches have theirs.
fn copies(alloc: Global, programs: &[TypedProgram]) -> Result<Vec<TypedProgram>, AllocError>
    requires { All (λ t. CanSpell (program_of t)) programs.now }
    ensures same { IfOk result (λ v. map program_of v.items ≡ map program_of programs.now) }
    ensures spelled { IfOk result (λ v. All (λ t. CanSpell (program_of t)) v.items) }
{
    let mut copies = Vec::new(alloc);
    for program in programs {
        copies.push(program.copy(alloc)?)?;
    }
    Ok(copies)
}

/// Events happen, one after the other.
fn happen<P: Pass + Drop>(
    alloc: Global,
    net: &mut Net<P>,
    events: &[Event],
) -> Result<(), AllocError>
    requires { CanHappen (length (state_of net.old).places) (state_of net.old).maps (tables_of (state_of net.old)) (map event_of events.now) }
    ensures same { IsSame (state_of net.old) (state_of net.new) }
    ensures runs { OnOk result (RunsTo (state_of net.old) (map event_of events.now) (state_of net.new)) }
{
    for event in events {
        net.step(alloc, event)?;
    }
    Ok(())
}
