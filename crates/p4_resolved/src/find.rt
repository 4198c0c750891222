//! What of a program a name stands for.

ghost use Rattle.std.specs.Prelude.{◌≡◌, map, [], Option};
ghost use Rattle.std.specs.Option.{option_map};
ghost use Rattle.p4_tree.specs.View.{top_of, parser_of, control_of};
ghost use Rattle.p4_meaning.specs.Scope.{param_at, param_name, param_type, type_name};
ghost use Rattle.p4_meaning.specs.Parts.{parser_named, control_named, struct_fields, header_fields, named_in};
ghost use Rattle.p4_resolved.specs.Lent.{lent};

use lex_text::Name;
use p4_tree::{Control, PTy, Param, Parser, Top};
use p4_values::same_text;

/// The name that a type is.
pub fn type_name(ty: &PTy) -> &str
    ensures { result.now ≡ type_name ty.now }
{
    match ty {
        PTy::Bit(_) => "",
        PTy::Bool => "",
        PTy::Named(name) => name.as_str(),
    }
}

/// The parameter at a place.
fn param_at(params: &[Param], n: u8) -> Option<&Param>
    ensures { lent result ≡ param_at params.now n }
{
    if (n as usize) < params.len() {
        Some(&params[n as usize])
    } else {
        None
    }
}

/// The name of the parameter at a place.
pub fn param_name(params: &[Param], n: u8) -> &str
    ensures { result.now ≡ param_name (param_at params.now n) }
{
    match param_at(params, n) {
        None => "",
        Some(p) => p.name.as_str(),
    }
}

/// The name of the type of the parameter at a place.
pub fn param_type(params: &[Param], n: u8) -> &str
    ensures { result.now ≡ param_type (param_at params.now n) }
{
    match param_at(params, n) {
        None => "",
        Some(p) => type_name(&p.ty),
    }
}

/// The parser of a name.
pub fn parser_named<'a>(tops: &'a [Top], name: &str) -> Option<&'a Parser>
    ensures { option_map parser_of (lent result) ≡ parser_named (map top_of tops.now) name.now }
{
    for top in tops {
        match top {
            Top::Pars(_, p) => {
                if same_text(p.name.as_str(), name) {
                    return Some(p);
                }
            }
            Top::Const(_, _, _, _) => {}
            Top::Typedef(_, _, _) => {}
            Top::Header(_, _, _) => {}
            Top::Struct(_, _, _) => {}
            Top::Reg(_, _) => {}
            Top::Ctl(_, _) => {}
        }
    }
    None
}

/// The control of a name.
pub fn control_named<'a>(tops: &'a [Top], name: &str) -> Option<&'a Control>
    ensures { option_map control_of (lent result) ≡ control_named (map top_of tops.now) name.now }
{
    for top in tops {
        match top {
            Top::Ctl(_, c) => {
                if same_text(c.name.as_str(), name) {
                    return Some(c);
                }
            }
            Top::Const(_, _, _, _) => {}
            Top::Typedef(_, _, _) => {}
            Top::Header(_, _, _) => {}
            Top::Struct(_, _, _) => {}
            Top::Reg(_, _) => {}
            Top::Pars(_, _) => {}
        }
    }
    None
}

/// The fields of the struct of a name.
pub fn struct_fields<'a>(tops: &'a [Top], name: &str) -> &'a [(PTy, Name)]
    ensures { result.now ≡ struct_fields (map top_of tops.now) name.now }
{
    for top in tops {
        match top {
            Top::Struct(_, own, fields) => {
                if same_text(own.as_str(), name) {
                    return fields;
                }
            }
            Top::Const(_, _, _, _) => {}
            Top::Typedef(_, _, _) => {}
            Top::Header(_, _, _) => {}
            Top::Reg(_, _) => {}
            Top::Pars(_, _) => {}
            Top::Ctl(_, _) => {}
        }
    }
    &[]
}

/// The fields of the header type of a name.
pub fn header_fields<'a>(tops: &'a [Top], name: &str) -> &'a [(PTy, Name)]
    ensures { result.now ≡ header_fields (map top_of tops.now) name.now }
{
    for top in tops {
        match top {
            Top::Header(_, own, fields) => {
                if same_text(own.as_str(), name) {
                    return fields;
                }
            }
            Top::Const(_, _, _, _) => {}
            Top::Typedef(_, _, _) => {}
            Top::Struct(_, _, _) => {}
            Top::Reg(_, _) => {}
            Top::Pars(_, _) => {}
            Top::Ctl(_, _) => {}
        }
    }
    &[]
}

/// The name at a place of `main`.
pub fn named_in(names: &[Name], n: usize) -> &str
    ensures { result.now ≡ named_in names.now n }
{
    if n < names.len() {
        names[n].as_str()
    } else {
        ""
    }
}
