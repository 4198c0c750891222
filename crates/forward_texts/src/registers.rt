//! The text of the registers of a run.

ghost use Rattle.std.specs.Prelude.{◌≡◌, ℕ, map, length, IfOk, string_bytes};
ghost use Rattle.p4_tree.specs.View.{program_of};
ghost use Rattle.p4_meaning.specs.Pass.{Kept};
ghost use Rattle.report_writer.specs.Texts.{cells_of};
ghost use Rattle.forward_texts.specs.Rows.{switches_cells};
ghost use Rattle.forward_texts.specs.Switches.{KeepAll, RunAll};
ghost use Rattle.path_runner.specs.Switches.{switch_of};

use network_file::Network;
use p4_machine::Pass;
use p4_parts::parts_of;
use p4_types::TypedProgram;
use register_texts::{Which, register_names, switch_text};
use std::alloc::{AllocError, Global};

/// The cells of the registers of all switches that are not 0, a line each.
pub fn registers_text<P: Pass>(
    alloc: Global,
    program: &TypedProgram,
    network: &Network,
    switches: &[P],
) -> Result<String, AllocError>
    requires switches { length switches.now ≡ length network.now.names }
    requires programs { RunAll (program_of program.now) (map (switch_of P.program P.tables P.cells) switches.now) }
    ensures { IfOk result (λ s. (keeps : ℕ → Kept) → KeepAll keeps (map (switch_of P.program P.tables P.cells) switches.now)
        → string_bytes s ≡ cells_of (switches_cells (program_of program.now) keeps 0 network.now.names)) }
{
    let parts = parts_of(alloc, program.program())?;
    let names = register_names(alloc, program.program())?;
    let mut text = String::new(alloc);
    for switch in 0..network.count() {
        let name = network.name(switch);
        let held = &switches[switch as usize];
        let cells = switch_text(alloc, Which::All, name, held, &names, &parts.registers)?;
        text.push_str(cells.as_str())?;
    }
    Ok(text)
}
