//! The files of what is linked.

ghost use Rattle.std.specs.Prelude.{◌≡◌, length, map, All, IfOk};
ghost use Rattle.indus_tree.specs.View.{property_of};
ghost use Rattle.p4_tree.specs.View.{program_of};
ghost use Rattle.p4_printer.specs.CanSpell.{CanSpell};
ghost use Rattle.job_course.specs.Output.{out_of};
ghost use Rattle.run_texts.specs.Files.{linked_files};
ghost use Rattle.linked_jobs.specs.Views.{programs_in, rows_in};
ghost use Rattle.run_job.specs.Views.{IsLinkedBase, base_of};
ghost use Rattle.link_run.specs.Headline.{LinkHeadline};
ghost use Rattle.link_run.specs.Output.{linked_line};

use indus_types::TypedProperty;
use job_course::Output;
use network_file::Network;
use program_linker::{Linked, simplify_linked};
use run_headline::linked_programs_keep_the_claims;
use run_job::{Base, Site};
use run_texts::put_own_linked;
use simplify_rules::RuleSet;
use std::alloc::{AllocError, Global};

/// Writes what is linked, with answers of the rules in it: the text of each switch's program, and a line
/// for each table that holds a control variable; for the sink how many switches there are.
///
/// # Errors
///
/// `AllocError` where memory runs out.
pub fn write_linked(
    alloc: Global,
    base: Base,
    out: &str,
    rules: &RuleSet,
) -> Result<Output, AllocError>
    requires { IsLinkedBase base }
    ensures { IfOk result (λ o. LinkHeadline (base_of base) out.now (out_of o)) }
{
    linked_programs_keep_the_claims();
    let Base { site, .. } = base;
    let Site {
        property,
        network,
        linked,
        ..
    } = site;
    let linked = simplify_linked(alloc, linked, rules)?;
    linked_output(alloc, &property, &network, linked, out)
}

/// The texts of the programs, and the tables in them that hold control variables. Each program is let go of when its
/// text is made.
fn linked_output(
    alloc: Global,
    property: &TypedProperty,
    network: &Network,
    linked: Linked,
    out: &str,
) -> Result<Output, AllocError>
    requires count { length (programs_in linked) ≡ length network.now.names }
    requires spelled { All (λ t. CanSpell (program_of t)) linked.programs.items }
    ensures files { IfOk result (λ o. (out_of o).files ≡ linked_files out.now (programs_in linked) (rows_in linked)
        (property_of property.now).decls network.now.names) }
    ensures text { IfOk result (λ o. (out_of o).text ≡ linked_line (length network.now.names)) }
{
    let Linked { programs, map, .. } = linked;
    let mut files = Vec::new(alloc);
    let decls = &property.property().decls;
    put_own_linked(alloc, &mut files, out, network, programs, &map, decls)?;
    let count = network.count();
    let text = format!(in alloc; "linked {count}\n")?;
    Ok(Output { files, text })
}
