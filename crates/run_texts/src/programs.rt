//! The files of linked programs.

ghost use Rattle.std.specs.Prelude.{◌≡◌, ◌∷◌, [], ◌++◌, length, map, All, OnOk};
ghost use Rattle.job_course.specs.Output.{files_of};
ghost use Rattle.p4_tree.specs.View.{program_of};
ghost use Rattle.p4_printer.specs.CanSpell.{CanSpell};
ghost use Rattle.run_texts.specs.Programs.{program_file, programs_files};

use network_file::Network;
use p4_printer::print_program;
use p4_tree::Program;
use p4_types::TypedProgram;
use std::alloc::{AllocError, Global};

/// The file of the program of a switch goes behind the others.
#[tactic(auto, unfolding(crate::specs::Programs::program_file))]
fn put_program(
    alloc: Global,
    files: &mut Vec<(String, Vec<u8>)>,
    out: &str,
    switch: &str,
    program: &Program,
) -> Result<(), AllocError>
    requires { CanSpell (program_of program.now) }
    ensures { OnOk result (files_of files.new.items
        ≡ files_of files.old.items ++ program_file out.now switch.now (program_of program.now) ∷ []) }
{
    let name = format!(in alloc; "{out}.linked.{switch}.p4")?;
    let mut text = print_program(alloc, program)?;
    text.shrink_to_fit();
    files.push((name, text.into_bytes()))?;
    Ok(())
}

/// Those of the programs of all switches, in the network's order.
pub fn put_programs(
    alloc: Global,
    files: &mut Vec<(String, Vec<u8>)>,
    out: &str,
    network: &Network,
    programs: &[TypedProgram],
) -> Result<(), AllocError>
    requires count { length programs.now ≡ length network.now.names }
    requires spelled { All (λ t. CanSpell (program_of t)) programs.now }
    ensures { OnOk result (files_of files.new.items
        ≡ files_of files.old.items ++ programs_files out.now (map program_of programs.now) network.now.names) }
{
    for switch in 0..network.count() {
        let name = network.name(switch);
        put_program(alloc, files, out, name, programs[switch as usize].program())?;
    }
    Ok(())
}

/// The same of programs that are handed over: each is let go of when its text is made.
pub fn put_own_programs(
    alloc: Global,
    files: &mut Vec<(String, Vec<u8>)>,
    out: &str,
    network: &Network,
    programs: Vec<TypedProgram>,
) -> Result<(), AllocError>
    requires count { length programs.items ≡ length network.now.names }
    requires spelled { All (λ t. CanSpell (program_of t)) programs.items }
    ensures { OnOk result (files_of files.new.items
        ≡ files_of files.old.items ++ programs_files out.now (map program_of programs.items) network.now.names) }
{
    files.reserve(network.count() as usize)?;
    let mut switch = 0;
    for program in programs {
        put_program(alloc, files, out, network.name(switch), program.program())?;
        switch += 1;
    }
    Ok(())
}
