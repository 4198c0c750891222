//! What is linked of a program, and the names that its controls give their parameters.

ghost use Rattle.std.specs.Prelude.{◌≡◌, [], IfOk, None};
ghost use Rattle.p4_tree.specs.View.{program_of};
ghost use Rattle.exit_programs.specs.Names.{HasGivenNames};
ghost use Rattle.lower_code.specs.View.{roots_of};
ghost use Rattle.tree_linkage.specs.Trees as tree;
ghost use Rattle.program_linker.specs.Parts as spec;
ghost use Rattle.program_linker.specs.Parts.{name_at};

use exit_lowering::without_exits;
use lex_text::Name;
use linked_trees::{control_roots, parted};
use lower_blocks::Roots;
use p4_resolved::{control_named, named_in};
use p4_tree::Program;
use p4_types::TypedProgram;
use std::alloc::{AllocError, Global};

/// The program of the same meaning without exits, and with two structs.
pub(crate) fn linked_form(alloc: Global, f: &TypedProgram) -> Result<Program, AllocError>
    requires given { HasGivenNames (program_of f.now) }
    ensures { IfOk result (λ q. program_of q ≡ tree.linked_form (program_of f.now)) }
{
    let lowered = without_exits(alloc, f)?;
    parted(alloc, lowered.program())
}

/// No control, whose parameters have no names.
fn no_roots(alloc: Global) -> Result<Roots, AllocError>
    ensures roots { IfOk result (λ r. roots_of r ≡ spec.roots_of None) }
    ensures name { IfOk result (λ r. r.control ≡ []) }
{
    Ok(Roots {
        control: Name::new(alloc, "")?,
        headers: Name::new(alloc, "")?,
        meta: Name::new(alloc, "")?,
        standard: Name::new(alloc, "")?,
    })
}

/// A control that `main` names, by its place there, with the names that it gives its parameters.
pub(crate) fn roots_at(alloc: Global, program: &Program, at: usize) -> Result<Roots, AllocError>
    ensures roots { IfOk result (λ r. roots_of r ≡ spec.roots_at (program_of program.now) at) }
    ensures name { IfOk result (λ r. r.control ≡ name_at (program_of program.now) at) }
{
    match control_named(&program.tops, named_in(&program.main, at)) {
        None => no_roots(alloc),
        Some(control) => {
            let roots = control_roots(alloc, control)?;
            Ok(Roots {
                control: control.name.copy(alloc)?,
                headers: roots.headers,
                meta: roots.metadata,
                standard: roots.standard,
            })
        }
    }
}
