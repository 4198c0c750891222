//! Taken names of declarations and of whole programs.

ghost use Rattle.std.specs.Prelude.{◌≡◌, ◌∷◌, [], IfErr, IfOk, None, map};
ghost use Rattle.std.specs.Option.{option_map};
ghost use Rattle.p4_tree.specs.Tree.{control, local_action, local_register, local_table, parser};
ghost use Rattle.p4_tree.specs.View.{action_of, case_of, control_of, default_of, key_of, keyset_of, local_of, parser_of, program_of, state_of, table_of, top_of, transition_of};
ghost use Rattle.link_faults.specs.Faults.{taken_fault};
ghost use Rattle.link_faults.specs.WrittenNames.{first_taken, names_of_cases, names_of_default, names_of_fields, names_of_keys, names_of_keyset, names_of_keysets, names_of_local, names_of_locals, names_of_params, names_of_program, names_of_states, names_of_top, names_of_tops, names_of_transition};
ghost use Rattle.link_checks.specs.Faults.{IsRefused};
ghost use Rattle.link_checks.specs.View.{text_of};

use crate::fault::LinkFault;
use crate::first::{first, in_name, in_names};
use crate::names::{in_expr, in_exprs, in_start, in_stmts, in_type, in_var};
use lex_text::Name;
use p4_tree::{
    Action, Control, Expr, Keyset, Local, PTy, Param, Parser, ParserState, Program, Register,
    Table, Top, Transition,
};
use std::alloc::Global;

fn in_fields(fields: &[(PTy, Name)]) -> Option<&str>
    ensures { text_of result ≡ first_taken (names_of_fields fields.now) }
{
    for f in fields {
        let taken = first(in_type(&f.0), in_name(&f.1));
        if taken.is_some() {
            return taken;
        }
    }
    None
}

fn in_params(params: &[Param]) -> Option<&str>
    ensures { text_of result ≡ first_taken (names_of_params params.now) }
{
    for p in params {
        let taken = first(in_type(&p.ty), in_name(&p.name));
        if taken.is_some() {
            return taken;
        }
    }
    None
}

fn in_keyset(k: &Keyset) -> Option<&str>
    ensures { text_of result ≡ first_taken (names_of_keyset (keyset_of k.now)) }
{
    match k {
        Keyset::Any(_) => None,
        Keyset::One(_, e) => in_expr(e),
        Keyset::Masked(_, e, mask) => first(in_expr(e), in_expr(mask)),
    }
}

fn in_keysets(list: &[Keyset]) -> Option<&str>
    ensures { text_of result ≡ first_taken (names_of_keysets (map keyset_of list.now)) }
{
    for k in list {
        let taken = in_keyset(k);
        if taken.is_some() {
            return taken;
        }
    }
    None
}

fn in_cases(list: &[(Vec<Keyset>, Name)]) -> Option<&str>
    ensures { text_of result ≡ first_taken (names_of_cases (map case_of list.now)) }
{
    for case in list {
        let taken = first(in_keysets(&case.0), in_name(&case.1));
        if taken.is_some() {
            return taken;
        }
    }
    None
}

fn in_transition(next: &Transition) -> Option<&str>
    ensures { text_of result ≡ first_taken (names_of_transition (transition_of next.now)) }
{
    match next {
        Transition::None(_) => None,
        Transition::To(_, x) => in_name(x),
        Transition::Select(_, list, cases) => first(in_exprs(list), in_cases(cases)),
    }
}

fn in_state(s: &ParserState) -> Option<&str>
    ensures { text_of result ≡ first_taken (names_of_states (state_of s.now ∷ [])) }
{
    first(
        in_name(&s.name),
        first(in_stmts(&s.body), in_transition(&s.next)),
    )
}

fn in_states(list: &[ParserState]) -> Option<&str>
    ensures { text_of result ≡ first_taken (names_of_states (map state_of list.now)) }
{
    for s in list {
        let taken = in_state(s);
        if taken.is_some() {
            return taken;
        }
    }
    None
}

fn in_keys(keys: &[(Expr, Name)]) -> Option<&str>
    ensures { text_of result ≡ first_taken (names_of_keys (map key_of keys.now)) }
{
    for key in keys {
        let taken = first(in_expr(&key.0), in_name(&key.1));
        if taken.is_some() {
            return taken;
        }
    }
    None
}

fn in_default(default: &Option<(Name, Vec<Expr>)>) -> Option<&str>
    ensures { text_of result ≡ first_taken (names_of_default (option_map default_of default.now)) }
{
    match default {
        None => None,
        Some(d) => first(in_name(&d.0), in_exprs(&d.1)),
    }
}

fn in_action(a: &Action) -> Option<&str>
    ensures { text_of result ≡ first_taken (names_of_local (local_action 0 (action_of a.now))) }
{
    first(
        in_name(&a.name),
        first(in_fields(&a.params), in_stmts(&a.body)),
    )
}

fn in_table(t: &Table) -> Option<&str>
    ensures { text_of result ≡ first_taken (names_of_local (local_table 0 (table_of t.now))) }
{
    let lists = first(
        in_keys(&t.keys),
        first(in_names(&t.actions), in_default(&t.default)),
    );
    first(in_name(&t.name), lists)
}

fn in_register(r: &Register) -> Option<&str>
    ensures { text_of result ≡ first_taken (names_of_local (local_register 0 r.now)) }
{
    first(in_type(&r.ty), in_name(&r.name))
}

fn in_local(l: &Local) -> Option<&str>
    ensures { text_of result ≡ first_taken (names_of_local (local_of l.now)) }
{
    match l {
        Local::Act(_, a) => in_action(a),
        Local::Tab(_, t) => in_table(t),
        Local::Reg(_, r) => in_register(r),
        Local::Const(_, ty, x, e) => in_var(ty, x, in_expr(e)),
        Local::Var(_, ty, x, start) => in_var(ty, x, in_start(start)),
    }
}

fn in_locals(list: &[Local]) -> Option<&str>
    ensures { text_of result ≡ first_taken (names_of_locals (map local_of list.now)) }
{
    for l in list {
        let taken = in_local(l);
        if taken.is_some() {
            return taken;
        }
    }
    None
}

fn in_parser(d: &Parser) -> Option<&str>
    ensures { text_of result ≡ first_taken (names_of_top (parser 0 (parser_of d.now))) }
{
    first(
        in_name(&d.name),
        first(in_params(&d.params), in_states(&d.states)),
    )
}

fn in_control(c: &Control) -> Option<&str>
    ensures { text_of result ≡ first_taken (names_of_top (control 0 (control_of c.now))) }
{
    let body = first(in_locals(&c.locals), in_stmts(&c.apply));
    first(in_name(&c.name), first(in_params(&c.params), body))
}

fn in_top(top: &Top) -> Option<&str>
    ensures { text_of result ≡ first_taken (names_of_top (top_of top.now)) }
{
    match top {
        Top::Const(_, ty, x, e) => in_var(ty, x, in_expr(e)),
        Top::Typedef(_, ty, x) => first(in_type(ty), in_name(x)),
        Top::Header(_, x, fields) => first(in_name(x), in_fields(fields)),
        Top::Struct(_, x, fields) => first(in_name(x), in_fields(fields)),
        Top::Reg(_, r) => in_register(r),
        Top::Pars(_, d) => in_parser(d),
        Top::Ctl(_, c) => in_control(c),
    }
}

fn in_tops(tops: &[Top]) -> Option<&str>
    ensures { text_of result ≡ first_taken (names_of_tops (map top_of tops.now)) }
{
    for top in tops {
        let taken = in_top(top);
        if taken.is_some() {
            return taken;
        }
    }
    None
}

/// The first name of a program that is taken, in the order of its text.
fn taken_name(program: &Program) -> Option<&str>
    ensures { text_of result ≡ first_taken (names_of_program (program_of program.now)) }
{
    first(in_tops(&program.tops), in_names(&program.main))
}

/// Whether no name of a program is taken.
pub fn check_names(alloc: Global, program: &Program) -> Result<(), LinkFault>
    ensures none { IfOk result (λ _. taken_fault (program_of program.now) ≡ None) }
    ensures cause { IfErr result (IsRefused (taken_fault (program_of program.now))) }
{
    match taken_name(program) {
        None => Ok(()),
        Some(x) => {
            let name = Name::new(alloc, x)?;
            Err(LinkFault::NameTaken { name })
        }
    }
}
