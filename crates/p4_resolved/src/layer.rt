//! Layers of declarations: those of a program, of a parser or a control, and of an action.

ghost use Rattle.std.specs.Prelude.{◌≡◌, ◌++◌, IfOk, OnOk, Some, map};
ghost use Rattle.p4_tree.specs.View.{action_of, control_of, expr_of, local_of, parser_of, stmt_of, stmts_of, else_of, top_of};
ghost use Rattle.p4_meaning.specs.Scope as meaning;
ghost use Rattle.p4_meaning.specs.Scope.{own_names, names_in, names_in_else, names_in_stmt, roots_of, type_under};
ghost use Rattle.p4_meaning.specs.Store.{blank};
ghost use Rattle.p4_meaning.specs.Statements.{start_of};
ghost use Rattle.p4_meaning.specs.Under.{expr_under, with_constant, with_type, no_scope, behind_top, behind_local, in_parser, in_control};
ghost use Rattle.p4_meaning.specs.Actions.{in_action, params_in};
ghost use Rattle.p4_resolved.specs.Scopes.{at_part, at_top, inner_of, names_of, roots_in, scope_of};

use crate::find::param_name;
use crate::latest::Latest;
use crate::names::Names;
use crate::scope::{Scope, type_under};
use crate::under::expr_under;
use bit_values::Bits;
use lex_text::Name;
use p4_tree::{Action, Control, Expr, Local, PTy, Param, Parser, Stmt, Top};
use p4_values::{Nowhere, start_of};
use std::alloc::{AllocError, Global};

/// The names that a parser or control gives to the headers, the metadata and the standard metadata.
#[derive(Drop)]
pub struct Roots {
    pub headers: Name,
    pub metadata: Name,
    pub standard: Name,
}

/// What is declared in a program, or in a parser or a control of it, as far as a place. Of constants
/// and of typedefs the last of a name counts.
pub struct Layer {
    pub roots: Roots,
    /// The control, and the names of its registers, tables and actions.
    pub control: Name,
    pub own: Names,
    pub constants: Latest<Bits>,
    pub types: Latest<PTy>,
}

impl Drop for Layer {
    fn drop(self) {
        let Layer {
            roots: _roots,
            control: _control,
            own: _own,
            constants: _constants,
            types: _types,
        } = self;
    }
}

/// The action around a place, and all names that it declares.
pub struct Inner {
    pub action: Name,
    pub names: Names,
}

impl Drop for Inner {
    fn drop(self) {
        let Inner {
            action: _action,
            names: _names,
        } = self;
    }
}

/// The roots, where the three parameters stand at these places.
pub fn roots_of(
    alloc: Global,
    params: &[Param],
    headers: u8,
    metadata: u8,
    standard: u8,
) -> Result<Roots, AllocError>
    ensures { IfOk result (λ r. roots_in r ≡ roots_of params.now headers metadata standard) }
{
    Ok(Roots {
        headers: Name::new(alloc, param_name(params, headers))?,
        metadata: Name::new(alloc, param_name(params, metadata))?,
        standard: Name::new(alloc, param_name(params, standard))?,
    })
}

/// The word of a constant, which is found once, here.
fn word_of(alloc: Global, sc: &Scope, ty: &PTy, value: &Expr) -> Result<Bits, AllocError>
    ensures { IfOk result (λ w. w ≡ start_of (type_under (scope_of sc.now).types ty.now) (Some (expr_under (scope_of sc.now) (expr_of value.now))) blank) }
{
    let ty = type_under(alloc, sc, ty)?;
    let start = Some(expr_under(alloc, sc, value)?);
    Ok(start_of(&ty, &start, &Nowhere))
}

/// The names of a control's registers, tables and actions.
fn own_names(alloc: Global, locals: &[Local]) -> Result<Names, AllocError>
    ensures { IfOk result (λ n. names_of n ≡ own_names (map local_of locals.now)) }
{
    let mut names = Names::new(alloc);
    for local in locals {
        match local {
            Local::Act(_, a) => names.push(alloc, &a.name)?,
            Local::Tab(_, t) => names.push(alloc, &t.name)?,
            Local::Reg(_, r) => names.push(alloc, &r.name)?,
            Local::Const(_, _, _, _) => {}
            Local::Var(_, _, _, _) => {}
        }
    }
    Ok(names)
}

/// A layer with these names, before its first constant.
fn layer_of(
    alloc: Global,
    roots: Roots,
    control: Name,
    own: Names,
) -> Result<Box<Layer>, AllocError>
    ensures top { IfOk result (λ l. at_top l.value ≡ record no_scope { roots = roots_in roots; control = control; own = names_of own }) }
    ensures within { IfOk result (λ l. (top : Layer) → at_part top l.value ≡ record (at_top top) { roots = roots_in roots; control = control; own = names_of own }) }
{
    let layer = Layer {
        roots,
        control,
        own,
        constants: Latest::new(alloc),
        types: Latest::new(alloc),
    };
    Ok(Box::new(alloc, layer)?)
}

impl Layer {
    /// The layer of a program before its first declaration.
    pub fn outside(alloc: Global) -> Result<Box<Layer>, AllocError>
        ensures { IfOk result (λ l. at_top l.value ≡ no_scope) }
    {
        let roots = roots_of(alloc, &[], 0, 0, 0)?;
        let control = Name::new(alloc, "")?;
        layer_of(alloc, roots, control, Names::new(alloc))
    }

    /// The layer of a parser, in a program as far as here.
    pub fn of_parser(alloc: Global, top: &Layer, parser: &Parser) -> Result<Box<Layer>, AllocError>
        ensures { IfOk result (λ l. at_part top.now l.value ≡ in_parser (at_top top.now) (parser_of parser.now)) }
    {
        let roots = roots_of(alloc, &parser.params, 1, 2, 3)?;
        let control = top.control.copy(alloc)?;
        layer_of(alloc, roots, control, top.own.copy(alloc)?)
    }

    /// The layer of a control before its first declaration, where the three parameters stand at these
    /// places, in a program as far as here.
    pub fn of_control(
        alloc: Global,
        headers: u8,
        metadata: u8,
        standard: u8,
        control: &Control,
    ) -> Result<Box<Layer>, AllocError>
        ensures { IfOk result (λ l. (top : Layer) → at_part top l.value ≡ in_control headers metadata standard (at_top top) (control_of control.now)) }
    {
        let roots = roots_of(alloc, &control.params, headers, metadata, standard)?;
        let name = control.name.copy(alloc)?;
        layer_of(alloc, roots, name, own_names(alloc, &control.locals)?)
    }

    /// What is in sight at top level.
    pub fn scope(&self) -> Scope<'_>
        ensures { scope_of result ≡ at_top self.now }
    {
        Scope {
            top: None,
            layer: self,
            inner: None,
        }
    }

    /// What is in sight in a parser or a control with this layer.
    pub fn within<'a>(&'a self, top: &'a Layer) -> Scope<'a>
        ensures { scope_of result ≡ at_part top.now self.now }
    {
        Scope {
            top: Some(top),
            layer: self,
            inner: None,
        }
    }

    /// A typedef is passed.
    fn pass_type(&mut self, alloc: Global, ty: &PTy, name: &Name) -> Result<(), AllocError>
        ensures { OnOk result (at_top self.new ≡ with_type (at_top self.old) ty.now name.now) }
    {
        let ty = type_under(alloc, &self.scope(), ty)?;
        self.types.push(alloc, name, ty)
    }

    /// A constant at top level is passed.
    fn pass_constant(
        &mut self,
        alloc: Global,
        ty: &PTy,
        name: &Name,
        value: &Expr,
    ) -> Result<(), AllocError>
        ensures { OnOk result (at_top self.new ≡ with_constant (at_top self.old) ty.now name.now (expr_of value.now)) }
    {
        let word = word_of(alloc, &self.scope(), ty, value)?;
        self.constants.push(alloc, name, word)
    }

    /// A declaration at top level is passed.
    pub fn pass_top(&mut self, alloc: Global, top: &Top) -> Result<(), AllocError>
        ensures { OnOk result (at_top self.new ≡ behind_top (at_top self.old) (top_of top.now)) }
    {
        match top {
            Top::Const(_, ty, name, value) => self.pass_constant(alloc, ty, name, value),
            Top::Typedef(_, ty, name) => self.pass_type(alloc, ty, name),
            Top::Header(_, _, _) => Ok(()),
            Top::Struct(_, _, _) => Ok(()),
            Top::Reg(_, _) => Ok(()),
            Top::Pars(_, _) => Ok(()),
            Top::Ctl(_, _) => Ok(()),
        }
    }

    /// A constant of a control is passed.
    fn pass_own_constant(
        &mut self,
        alloc: Global,
        top: &Layer,
        ty: &PTy,
        name: &Name,
        value: &Expr,
    ) -> Result<(), AllocError>
        ensures { OnOk result (at_part top.now self.new ≡ with_constant (at_part top.now self.old) ty.now name.now (expr_of value.now)) }
    {
        let word = word_of(alloc, &self.within(top), ty, value)?;
        self.constants.push(alloc, name, word)
    }

    /// A declaration of a control is passed.
    pub fn pass_local(
        &mut self,
        alloc: Global,
        top: &Layer,
        local: &Local,
    ) -> Result<(), AllocError>
        ensures { OnOk result (at_part top.now self.new ≡ behind_local (at_part top.now self.old) (local_of local.now)) }
    {
        match local {
            Local::Const(_, ty, name, value) => {
                self.pass_own_constant(alloc, top, ty, name, value)
            }
            Local::Act(_, _) => Ok(()),
            Local::Tab(_, _) => Ok(()),
            Local::Reg(_, _) => Ok(()),
            Local::Var(_, _, _, _) => Ok(()),
        }
    }
}

/// The names of the variables that a statement declares go behind those that are there.
#[cycle(names)]
fn push_names(alloc: Global, s: &Stmt, names: &mut Names) -> Result<(), AllocError>
    ensures { OnOk result (names_of names.new ≡ names_of names.old ++ names_in_stmt (stmt_of s.now)) }
{
    match s {
        Stmt::Block(_, body) => push_names_in(alloc, body, names),
        Stmt::Var(_, _, name, _) => names.push(alloc, name),
        Stmt::If(_, _, a, b) => {
            push_names(alloc, a, names)?;
            push_names_in_else(alloc, b, names)?;
            Ok(())
        }
        Stmt::Nothing(_) => Ok(()),
        Stmt::Assign(_, _, _) => Ok(()),
        Stmt::Return(_) => Ok(()),
        Stmt::Exit(_) => Ok(()),
        Stmt::Call(_, _, _) => Ok(()),
    }
}

#[cycle(names)]
fn push_names_in_else(
    alloc: Global,
    other: &Option<Box<Stmt>>,
    names: &mut Names,
) -> Result<(), AllocError>
    ensures { OnOk result (names_of names.new ≡ names_of names.old ++ names_in_else (else_of other.now)) }
{
    match other {
        None => Ok(()),
        Some(s) => push_names(alloc, s, names),
    }
}

#[cycle(names)]
fn push_names_in(alloc: Global, list: &[Stmt], names: &mut Names) -> Result<(), AllocError>
    ensures { OnOk result (names_of names.new ≡ names_of names.old ++ names_in (stmts_of list.now)) }
{
    for s in list {
        push_names(alloc, s, names)?;
    }
    Ok(())
}

/// The names of an action's parameters.
fn param_names(alloc: Global, params: &[(PTy, Name)]) -> Result<Names, AllocError>
    ensures { IfOk result (λ n. names_of n ≡ params_in params.now) }
{
    let mut names = Names::new(alloc);
    for p in params {
        names.push(alloc, &p.1)?;
    }
    Ok(names)
}

impl Inner {
    /// An action: its own names stand apart from its control's.
    pub fn of(alloc: Global, a: &Action) -> Result<Box<Inner>, AllocError>
        ensures { IfOk result (λ i. (sc : meaning.Scope) → record sc { inner = Some (inner_of i.value) } ≡ in_action sc (action_of a.now)) }
    {
        let mut names = param_names(alloc, &a.params)?;
        push_names_in(alloc, &a.body, &mut names)?;
        let action = a.name.copy(alloc)?;
        Ok(Box::new(alloc, Inner { action, names })?)
    }

    /// What is in sight in the action, in a control with this layer.
    pub fn within<'a>(&'a self, top: &'a Layer, layer: &'a Layer) -> Scope<'a>
        ensures { scope_of result ≡ record (at_part top.now layer.now) { inner = Some (inner_of self.now) } }
    {
        Scope {
            top: Some(top),
            layer,
            inner: Some(self),
        }
    }
}
