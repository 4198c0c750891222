//! What calls of actions and applications of tables do.

ghost use Rattle.std.specs.Prelude.{◌≡◌, IfOk, map};
ghost use Rattle.p4_tree.specs.View.{arg_of};
ghost use Rattle.p4_meaning.specs.Statements as meaning;
ghost use Rattle.p4_meaning.specs.Statements.{no_calls, values_in};
ghost use Rattle.p4_statements.specs.Runs.{ended, flow_of, run_of, tested_of};

use crate::run::{Flow, Run, Tested};
use p4_tree::Arg;
use std::alloc::{AllocError, Global};

/// What calls of actions and applications of tables do, by full names.
pub trait Calls {
    /// The same in the trees' meaning.
    ghost means: { Self → meaning.Calls };

    /// Runs the action of a name on a call's arguments, and says how that ends.
    fn run_action(
        &self,
        alloc: Global,
        action: &str,
        args: &[Arg],
        r: &mut Run,
    ) -> Result<Flow, AllocError>
        ensures { IfOk result (λ flow. ended (run_of r.new) (flow_of flow) ≡ (means self.now).run_action action.now (values_in (map arg_of args.now)) (run_of r.old)) };

    /// Applies the table of a name, and says how that ends and whether it was a hit.
    fn apply_table(&self, alloc: Global, table: &str, r: &mut Run) -> Result<Tested, AllocError>
        ensures { IfOk result (λ t. tested_of (run_of r.new) t ≡ (means self.now).apply_table table.now (run_of r.old)) };
}

/// Where no action is called and no table applied: such a call does nothing, and each application
/// misses.
#[derive(Clone, Copy, Debug)]
pub struct NoCalls;

impl Calls for NoCalls {
    ghost means = { λ c. no_calls };

    fn run_action(
        &self,
        _alloc: Global,
        _action: &str,
        _args: &[Arg],
        _r: &mut Run,
    ) -> Result<Flow, AllocError> {
        Ok(Flow::Go)
    }

    fn apply_table(
        &self,
        _alloc: Global,
        _table: &str,
        _r: &mut Run,
    ) -> Result<Tested, AllocError> {
        Ok(Tested {
            flow: Flow::Go,
            hit: false,
        })
    }
}
