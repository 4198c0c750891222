//! How much code a program makes: an action's body is made anew at each of its calls, and at each application
//! of a table that may run it.

use p4_parts::{Body, Parts, Table};
use p4_tree::{Arg, Expr, Stmt};
use p4_values::same_text;
use slot_control_codes::{Act, act_of, asked_by};
use std::alloc::{AllocError, Global};

/// Of how many nodes of trees the code of a program may be made.
const MOST_NODES: usize = 262_144;

/// How many nodes the code of actions and of applications is made of, in the order of the program.
#[derive(Clone, Copy)]
struct Sizes<'a> {
    parts: &'a Parts,
    actions: &'a [usize],
    tables: &'a [usize],
}

/// The nodes of an expression.
fn expression_size(e: &Expr) -> usize {
    match e {
        Expr::Num(_, _) | Expr::Flag(_, _) | Expr::Path(_, _) | Expr::Valid(_, _) => 1,
        Expr::Applied(_, _, _) | Expr::ErrorName(_, _) => 1,
        Expr::Not(_, a) | Expr::Invert(_, a) | Expr::Negate(_, a) => {
            expression_size(a).saturating_add(1)
        }
        Expr::Slice(_, a, _, _) | Expr::Cast(_, _, a) => expression_size(a).saturating_add(1),
        Expr::Bin(_, _, a, b) => expression_size(a)
            .saturating_add(expression_size(b))
            .saturating_add(1),
        Expr::Choice(_, t, a, b) => expression_size(t)
            .saturating_add(expression_size(a))
            .saturating_add(expression_size(b))
            .saturating_add(1),
    }
}

/// The nodes of expressions.
fn expressions_size(list: &[Expr]) -> usize {
    let mut size: usize = 0;
    for e in list {
        size = size.saturating_add(expression_size(e));
    }
    size
}

/// The nodes of arguments.
fn arguments_size(args: &[Arg]) -> usize {
    let mut size: usize = 0;
    for arg in args {
        size = size.saturating_add(match arg {
            Arg::One(_, e) => expression_size(e),
            Arg::Many(_, list) => expressions_size(list),
        });
    }
    size
}

impl Sizes<'_> {
    /// What the first action of a name is made of.
    fn action(&self, x: &str) -> usize {
        for i in 0..self.parts.actions.len() {
            if same_text(self.parts.actions[i].name.as_str(), x) {
                return *self.actions.get(i).unwrap_or(&0);
            }
        }
        0
    }

    /// What an application of the first table of a name is made of.
    fn table(&self, x: &str) -> usize {
        for i in 0..self.parts.tables.len() {
            if same_text(self.parts.tables[i].name.as_str(), x) {
                return *self.tables.get(i).unwrap_or(&0);
            }
        }
        0
    }

    /// The nodes of which the steps of a statement are made.
    #[cycle(sizes)]
    fn statement(&self, s: &Stmt) -> usize {
        let size = match s {
            Stmt::Nothing(_) | Stmt::Return(_) | Stmt::Exit(_) => 0,
            Stmt::Block(_, body) => self.statements(body),
            Stmt::Var(_, _, _, start) => match start {
                None => 0,
                Some(e) => expression_size(e),
            },
            Stmt::Assign(_, _, e) => expression_size(e),
            Stmt::If(_, e, a, b) => {
                let test = match asked_by(e) {
                    None => expression_size(e),
                    Some(asked) => self.table(asked.table),
                };
                let other = match b {
                    None => 0,
                    Some(b) => self.statement(b),
                };
                test.saturating_add(self.statement(a)).saturating_add(other)
            }
            Stmt::Call(_, callee, args) => {
                let body = match act_of(callee, args) {
                    Act::Run(x, _) => self.action(x),
                    Act::Apply(x) => self.table(x),
                    _ => 0,
                };
                arguments_size(args).saturating_add(body)
            }
        };
        size.saturating_add(1)
    }

    /// The same of statements one after the other.
    #[cycle(sizes)]
    fn statements(&self, list: &[Stmt]) -> usize {
        let mut size: usize = 0;
        for s in list {
            size = size.saturating_add(self.statement(s));
        }
        size
    }

    /// The same of a control.
    fn body(&self, b: &Body) -> usize {
        self.statements(&b.locals)
            .saturating_add(self.statements(&b.body))
    }

    /// What the application of a table is made of: its keys, and the bodies of its actions.
    fn application(&self, t: &Table) -> usize {
        let mut size: usize = self.action(t.default.action.as_str());
        for key in &t.keys {
            size = size.saturating_add(expression_size(&key.value));
        }
        for x in &t.actions {
            size = size.saturating_add(self.action(x.as_str()));
        }
        size
    }
}

/// What each action is made of. In an action no action is called and no table applied.
fn action_sizes(alloc: Global, p: &Parts) -> Result<Vec<usize>, AllocError> {
    let bare = Sizes {
        parts: p,
        actions: &[],
        tables: &[],
    };
    let mut sizes = Vec::new(alloc);
    for a in &p.actions {
        sizes.push(bare.statements(&a.body))?;
    }
    Ok(sizes)
}

/// What an application of each table is made of.
fn table_sizes(alloc: Global, p: &Parts, actions: &[usize]) -> Result<Vec<usize>, AllocError> {
    let sizes = Sizes {
        parts: p,
        actions,
        tables: &[],
    };
    let mut all = Vec::new(alloc);
    for t in &p.tables {
        all.push(sizes.application(t))?;
    }
    Ok(all)
}

/// Whether the code of a program's controls is not too much.
pub(crate) fn is_small(alloc: Global, p: &Parts) -> Result<bool, AllocError> {
    let actions = action_sizes(alloc, p)?;
    let tables = table_sizes(alloc, p, &actions)?;
    let sizes = Sizes {
        parts: p,
        actions: &actions,
        tables: &tables,
    };
    let size = sizes
        .body(&p.ingress)
        .saturating_add(sizes.body(&p.egress))
        .saturating_add(sizes.body(&p.verify))
        .saturating_add(sizes.body(&p.compute));
    Ok(size <= MOST_NODES)
}
