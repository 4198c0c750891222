//! The linked programs of switches.

ghost use Rattle.std.specs.Prelude.{◌≡◌, ◌<◌, ◌≤◌, IfOk, map, ℕ};
ghost use Rattle.std.specs.List.{range_with_len};
ghost use Rattle.p4_tree.specs.View.{program_of};
ghost use Rattle.p4_rules.specs.ProgramRules.{IsWellTyped};
ghost use Rattle.p4_types.specs.Counts.{AreCounts};
ghost use Rattle.linked_rules.specs.Fine.{CountAlike};
ghost use Rattle.linked_trees.specs.View.{lowered_of};
ghost use Rattle.program_linker.specs.Parts.{linked_at};

use linked_trees::{Parts, linked};
use network_file::Network;
use p4_tree::Program;
use p4_types::{Counts, ProgramTypeFault, TypedProgram, check_program};
use std::alloc::{AllocError, Global};

/// A program that breaks no rule, with what is counted of it.
fn typed(alloc: Global, program: Program) -> Result<TypedProgram, AllocError>
    requires { IsWellTyped (program_of program) }
    ensures { IfOk result (λ t. program_of t ≡ program_of program) }
{
    match check_program(alloc, program) {
        Ok(program) => Ok(program),
        Err(ProgramTypeFault::NoMemory) => Err(AllocError),
        Err(ProgramTypeFault::Type_ { .. }) => unreachable!(),
    }
}

/// The tree of the linked program of a switch.
fn linked_tree(
    alloc: Global,
    parts: &Parts,
    size: u16,
    net: &Network,
    switch: u16,
    program: &Program,
) -> Result<Program, AllocError>
    ensures { IfOk result (λ q. program_of q ≡ linked_at (lowered_of parts.now) size net.now (program_of program.now) switch) }
{
    let ports = net.linked_ports(alloc, switch)?;
    linked(alloc, parts, size, switch, &ports, program)
}

/// The linked program of a switch, which is tested.
fn first_switch(
    alloc: Global,
    parts: &Parts,
    size: u16,
    net: &Network,
    program: &Program,
) -> Result<TypedProgram, AllocError>
    requires { IsWellTyped (linked_at (lowered_of parts.now) size net.now (program_of program.now) 0) }
    ensures { IfOk result (λ t. program_of t ≡ linked_at (lowered_of parts.now) size net.now (program_of program.now) 0) }
{
    let tree = linked_tree(alloc, parts, size, net, 0, program)?;
    typed(alloc, tree)
}

/// That of another switch, of which as much is counted as of the first.
fn next_switch(
    alloc: Global,
    parts: &Parts,
    size: u16,
    net: &Network,
    switch: u16,
    program: &Program,
    counts: Counts,
) -> Result<TypedProgram, AllocError>
    requires typed { IsWellTyped (linked_at (lowered_of parts.now) size net.now (program_of program.now) switch) }
    requires counted { AreCounts (linked_at (lowered_of parts.now) size net.now (program_of program.now) switch) counts }
    ensures { IfOk result (λ t. program_of t ≡ linked_at (lowered_of parts.now) size net.now (program_of program.now) switch) }
{
    let tree = linked_tree(alloc, parts, size, net, switch, program)?;
    TypedProgram::known(alloc, tree, counts)
}

/// The linked programs of so many switches. The rules are tested of the first alone.
pub(crate) fn linked_switches(
    alloc: Global,
    parts: &Parts,
    size: u16,
    net: &Network,
    count: u16,
    program: &Program,
) -> Result<Vec<TypedProgram>, AllocError>
    requires some { 1 ≤ count }
    requires few { count ≤ 256 }
    requires typed { (s : ℕ) → s < 256 → IsWellTyped (linked_at (lowered_of parts.now) size net.now (program_of program.now) s) }
    requires alike { (s : ℕ) → s < 256 → CountAlike (linked_at (lowered_of parts.now) size net.now (program_of program.now) s)
        (linked_at (lowered_of parts.now) size net.now (program_of program.now) 0) }
    ensures { IfOk result (λ v. map program_of v.items
        ≡ map (linked_at (lowered_of parts.now) size net.now (program_of program.now)) (range_with_len 0 count)) }
{
    let first = first_switch(alloc, parts, size, net, program)?;
    let counts = first.counts();
    let mut programs = Vec::new(alloc);
    programs.push(first)?;
    for switch in 1..count {
        programs.push(next_switch(alloc, parts, size, net, switch, program, counts)?)?;
    }
    Ok(programs)
}
