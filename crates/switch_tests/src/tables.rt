//! The table of a control variable and its first action, from the text of the declaration.

use crate::texts::{put, put_number, put_word, same};
use control_tables::table_for;
use indus_reader::read_property;
use indus_tree::Decl;
use lex_text::Name;
use p4_tree::{Action, Expr, PTy, Stmt, Table};
use std::alloc::Global;
use std::mem::forget;
use std::process::Abort;

/// `hydra_f_3`
fn put_path(rt: &impl Abort, out: &mut String, names: &[Name]) {
    for name in names {
        put(rt, out, name.as_str());
    }
}

/// ` hydra_a_3 NoAction`
fn put_names(rt: &impl Abort, out: &mut String, names: &[Name]) {
    for name in names {
        put(rt, out, " ");
        put(rt, out, name.as_str());
    }
}

fn put_expr(rt: &impl Abort, alloc: Global, out: &mut String, e: &Expr) {
    match e {
        Expr::Num(_, n) => put_word(rt, alloc, out, n.width, n.value),
        Expr::Path(_, names) => put_path(rt, out, names),
        _ => put(rt, out, "?"),
    }
}

/// ` hydra_k_3_0:exact`
fn put_keys(rt: &impl Abort, alloc: Global, out: &mut String, keys: &[(Expr, Name)]) {
    for (value, kind) in keys {
        put(rt, out, " ");
        put_expr(rt, alloc, out, value);
        put(rt, out, ":");
        put(rt, out, kind.as_str());
    }
}

/// ` hydra_a_3 8w0`
fn put_default(rt: &impl Abort, alloc: Global, out: &mut String, name: &Name, args: &[Expr]) {
    put(rt, out, " ");
    put(rt, out, name.as_str());
    for arg in args {
        put(rt, out, " ");
        put_expr(rt, alloc, out, arg);
    }
}

/// `hydra_t_3 hydra_k_3_0:exact { hydra_a_3 NoAction } NoAction`
fn put_table(rt: &impl Abort, alloc: Global, out: &mut String, table: &Table) {
    put(rt, out, table.name.as_str());
    put_keys(rt, alloc, out, &table.keys);
    put(rt, out, " {");
    put_names(rt, out, &table.actions);
    put(rt, out, " }");
    if let Some((name, args)) = &table.default {
        put_default(rt, alloc, out, name, args);
    }
}

/// ` 8:hydra_value`
fn put_params(rt: &impl Abort, alloc: Global, out: &mut String, params: &[(PTy, Name)]) {
    for (ty, name) in params {
        let width = match ty {
            PTy::Bit(width) => *width,
            PTy::Bool | PTy::Named(_) => 0,
        };
        put(rt, out, " ");
        put_number(rt, alloc, out, u128::from(width));
        put(rt, out, ":");
        put(rt, out, name.as_str());
    }
}

/// `hydra_a_3 8:hydra_value hydra_f_3 = hydra_value`
fn put_action(rt: &impl Abort, alloc: Global, out: &mut String, action: &Action) {
    put(rt, out, action.name.as_str());
    put_params(rt, alloc, out, &action.params);
    for stmt in &action.body {
        if let Stmt::Assign(_, target, value) = stmt {
            put_names(rt, out, target);
            put(rt, out, " = ");
            put_expr(rt, alloc, out, value);
        }
    }
}

/// The table of the lookup of number 3 of a variable, and its action.
fn shown(rt: &impl Abort, alloc: Global, variable: &Decl) -> String {
    let mut out = String::new(alloc);
    let (table, action) = table_for(alloc, variable, 3).expect(rt, "memory");
    put_table(rt, alloc, &mut out, &table);
    put(rt, &mut out, "; ");
    put_action(rt, alloc, &mut out, &action);
    forget(table);
    forget(action);
    out
}

/// A row is a declaration, and what is made of it.
fn row_agrees(rt: &impl Abort, alloc: Global, row: &str) {
    let (declaration, wanted) = row.split_once(" => ").expect(rt, "a row has one side");
    let mut text = String::new(alloc);
    put(rt, &mut text, declaration);
    put(rt, &mut text, " {} {} {}");
    assert!(rt; text.len() <= 65536);
    let property = read_property(alloc, text.as_bytes()).expect(rt, "a property");
    let variable = property.decls.first().expect(rt, "a variable");
    same(rt, &shown(rt, alloc, variable), wanted, row);
    forget(property);
}

const TABLES: &str = "\
control bit<8> limit; => hydra_t_3 { hydra_a_3 } hydra_a_3 8w0; hydra_a_3 8:hydra_value hydra_f_3 = hydra_value
control bool open; => hydra_t_3 { hydra_a_3 } hydra_a_3 1w0; hydra_a_3 1:hydra_value hydra_f_3 = hydra_value
control set<bit<32>> hosts; => hydra_t_3 hydra_k_3_0:exact { hydra_a_3 NoAction } NoAction; hydra_a_3 hydra_f_3 = 1w1
control set<(bit<9>, bool)> ports; => hydra_t_3 hydra_k_3_0:exact hydra_k_3_1:exact { hydra_a_3 NoAction } NoAction; hydra_a_3 hydra_f_3 = 1w1
control dict<bit<9>, bit<8>> tenants; => hydra_t_3 hydra_k_3_0:exact { hydra_a_3 NoAction } NoAction; hydra_a_3 8:hydra_value hydra_f_3 = hydra_value
control dict<(bit<8>, bit<8>), bool> allowed; => hydra_t_3 hydra_k_3_0:exact hydra_k_3_1:exact { hydra_a_3 NoAction } NoAction; hydra_a_3 1:hydra_value hydra_f_3 = hydra_value
";

#[test]
fn tables(rt: HostRuntime) {
    for row in TABLES.lines() {
        row_agrees(&rt, rt.alloc(), row);
    }
}
