//! The lowering of whole properties, as the linker takes it.
//!
//! The layer above gets `WholeProperties`, a `LinkedMonitor`, and the law that declared fields give header
//! variables what fits them. The crate has no code. It stands apart from `whole_properties`, since an
//! `impl` cites definitions alone, which may rest on lemmas of the crates below.
#![tactic(auto)]

mod laws;

ghost use Rattle.indus_tree.specs.State.{Contents, Held};
ghost use Rattle.whole_properties.specs.Whole.{Given, lower_monitor, IsFitTele, Keeps, IsVariable, IsFitContents};
ghost use Rattle.whole_properties.specs.Asked.{IsGiven, FitsView};
ghost use Rattle.whole_monitor.specs.WholeLaws.{whole_laws};

pub use laws::fields_give_views;
use monitor_laws::{LinkedMonitor, LoweredMonitor};

/// The lowering of whole properties. It has no code.
pub struct WholeProperties;

impl LoweredMonitor for WholeProperties {
    ghost Given = { Given };

    ghost IsGiven = { IsGiven };

    ghost Tele = { Held };

    ghost Sensors = { Held };

    ghost Contents = { Contents };

    ghost monitor = { lower_monitor };

    ghost IsFitTele = { IsFitTele };

    ghost IsFitView = { FitsView };

    ghost Keeps = { Keeps };

    ghost IsVariable = { IsVariable };

    ghost IsFitContents = { IsFitContents };
}

impl LinkedMonitor for WholeProperties {
    ghost laws = { whole_laws };
}
