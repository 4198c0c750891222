//! What a property lowers to.

use control_tables::ControlMap;
use p4_tree::{Local, Stmt, Top};

/// The parts of a monitor, as trees. Statements and local declarations are written by the names that
/// ingress and egress give their parameters; all places are 0.
#[derive(Debug, Drop)]
pub struct Lowered {
    /// What init does.
    pub entry: Vec<Stmt>,
    /// What telemetry does, and at the last hop the checker.
    pub exit: Vec<Stmt>,
    /// Variables, actions and tables of ingress.
    pub entry_locals: Vec<Local>,
    /// Variables, actions and tables of egress: first the flags `hydra_first` and `hydra_last`, which a
    /// linker sets, and `hydra_rejected`, which holds the verdict.
    pub exit_locals: Vec<Local>,
    /// The header type `hydra_tele_t`, and a register for each sensor.
    pub tops: Vec<Top>,
    /// The table of each lookup of a control variable.
    pub map: ControlMap,
}
