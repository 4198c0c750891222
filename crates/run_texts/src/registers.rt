//! The text of the registers of a run.

ghost use Rattle.std.specs.Prelude.{◌≡◌, ℕ, length, map, IfOk, string_bytes};
ghost use Rattle.p4_tree.specs.View.{program_of};
ghost use Rattle.p4_meaning.specs.Pass.{Kept};
ghost use Rattle.report_writer.specs.Texts.{cells_of};
ghost use Rattle.forward_texts.specs.Switches.{KeepAll};
ghost use Rattle.run_texts.specs.Registers.{programs_in, switch_cells, switches_cells};
ghost use Rattle.path_runner.specs.Switches.{switch_of};

use network_file::Network;
use p4_machine::Pass;
use p4_parts::parts_of;
use p4_types::TypedProgram;
use register_texts::{Which, register_names, switch_text};
use std::alloc::{AllocError, Global};

/// The cells of the registers of a switch that are not 0: those of the forwarding program, then those of
/// sensors, then the number of rejected packets.
fn cells_text<P: Pass>(
    alloc: Global,
    name: &str,
    program: &TypedProgram,
    switch: &P,
) -> Result<String, AllocError>
    requires { P.program switch.now ≡ program_of program.now }
    ensures { IfOk result (λ s. string_bytes s ≡ cells_of (switch_cells (program_of program.now) name.now
        (P.cells switch.now))) }
{
    let parts = parts_of(alloc, program.program())?;
    let registers = parts.registers.as_slice();
    let names = register_names(alloc, program.program())?;
    let names = names.as_slice();
    let mut text = switch_text(alloc, Which::Forwarding, name, switch, names, registers)?;
    let sensors = switch_text(alloc, Which::Sensors, name, switch, names, registers)?;
    let rejects = switch_text(alloc, Which::Rejects, name, switch, names, registers)?;
    text.push_str(sensors.as_str())?;
    text.push_str(rejects.as_str())?;
    Ok(text)
}

/// The cells of the registers of all switches that are not 0, a line each. The switches run these
/// programs.
pub fn registers_text<P: Pass>(
    alloc: Global,
    network: &Network,
    programs: &[TypedProgram],
    switches: &[P],
) -> Result<String, AllocError>
    requires count { length switches.now ≡ length network.now.names }
    requires programs { programs_in (map (switch_of P.program P.tables P.cells) switches.now) ≡ map program_of programs.now }
    ensures { IfOk result (λ s. (keeps : ℕ → Kept) → KeepAll keeps (map (switch_of P.program P.tables P.cells) switches.now)
        → string_bytes s ≡ cells_of (switches_cells (map program_of programs.now) keeps 0 network.now.names)) }
{
    let mut text = String::new(alloc);
    for switch in 0..network.count() {
        let name = network.name(switch);
        let at = switch as usize;
        let cells = cells_text(alloc, name, &programs[at], &switches[at])?;
        text.push_str(cells.as_str())?;
    }
    Ok(text)
}
