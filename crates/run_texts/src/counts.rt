//! What the summary of a run counts.

ghost use Rattle.std.specs.Prelude.{◌≡◌, ◌<◌, ◌^◌, ℕ, length, map, IfOk};
ghost use Rattle.bit_values.specs.Bits.{cast};
ghost use Rattle.p4_tree.specs.View.{program_of};
ghost use Rattle.p4_meaning.specs.Parts.{parts_of};
ghost use Rattle.p4_meaning.specs.Pass.{Kept};
ghost use Rattle.monitor_laws.specs.Names.{rejects_register};
ghost use Rattle.path_runner.specs.Packets.{told_of};
ghost use Rattle.register_texts.specs.Rows.{first_cell};
ghost use Rattle.forward_texts.specs.Switches.{KeepAll};
ghost use Rattle.run_texts.specs.Registers.{programs_in, rejected_from};
ghost use Rattle.run_texts.specs.Told.{reports_in};
ghost use Rattle.path_runner.specs.Switches.{switch_of};

use crate::told::is_report;
use network_file::Network;
use p4_machine::Pass;
use p4_parts::parts_of;
use p4_types::TypedProgram;
use path_runner::Told;
use register_texts::first_cell;
use std::alloc::{AllocError, Global};

/// How many packets a switch counts as rejected.
fn rejected_by<P: Pass>(
    alloc: Global,
    program: &TypedProgram,
    switch: &P,
) -> Result<u64, AllocError>
    requires { P.program switch.now ≡ program_of program.now }
    ensures value { IfOk result (λ n. n ≡ cast 32 (first_cell (parts_of (program_of program.now)).registers
        (P.cells switch.now) rejects_register)) }
    ensures low { IfOk result (λ n. n < 2 ^ 32) }
{
    let parts = parts_of(alloc, program.program())?;
    let registers = parts.registers.as_slice();
    let count = first_cell(switch, registers, "hydra_rejects")?;
    Ok((count % 4_294_967_296) as u64)
}

/// How many packets all switches count as rejected. The switches run these programs.
pub fn rejected<P: Pass>(
    alloc: Global,
    network: &Network,
    programs: &[TypedProgram],
    switches: &[P],
) -> Result<u64, AllocError>
    requires count { length switches.now ≡ length network.now.names }
    requires programs { programs_in (map (switch_of P.program P.tables P.cells) switches.now) ≡ map program_of programs.now }
    ensures { IfOk result (λ n. (keeps : ℕ → Kept) → KeepAll keeps (map (switch_of P.program P.tables P.cells) switches.now)
        → n ≡ rejected_from (map program_of programs.now) keeps 0) }
{
    let mut sum = 0;
    for switch in 0..network.count() {
        let at = switch as usize;
        let one = rejected_by(alloc, &programs[at], &switches[at])?;
        sum += one;
    }
    Ok(sum)
}

/// How many of the digests are reports.
pub fn reports(told: &[Told]) -> u64
    ensures { result ≡ reports_in (map told_of told.now) }
{
    let mut count = 0;
    for x in told {
        if is_report(x) {
            count += 1;
        }
    }
    count
}
