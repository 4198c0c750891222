//! What is tested of `main`.

ghost use Rattle.std.specs.Prelude.{◌≡◌, IfOk, drop, map};
ghost use Rattle.std.specs.Option.{option_map};
ghost use Rattle.p4_tree.specs.View.{control_of, parser_of, top_of, program_of};
ghost use Rattle.p4_scopes.specs.Scopes as scopes;
ghost use Rattle.p4_scopes.specs.View.{scope_of};
ghost use Rattle.p4_meaning.specs.Parts.{parser_type};
ghost use Rattle.p4_resolved.specs.Lent.{lent};
ghost use Rattle.p4_statement_rules.specs.Ranks.{first_from};
ghost use Rattle.p4_declaration_rules.specs.Loops.{named};
ghost use Rattle.p4_rules.specs.Mains.{leaves_out, leaves_some_out, has_controls, names_parts, same_way, is_named, all_fields, is_struct, is_struct_of, structs_of, is_wanted, wanted_tests, parser_params, control_params, parts_params, main_tests};
ghost use Rattle.p4_rules.specs.Views.{fits_of, wanted_of, structs_view, wanted_at};

use indexmap::IndexSet;
use lex_text::Name;
use p4_declaration_rules::names::{has_twice, is_in, name_table};
use p4_resolved::{control_named, named_in, param_type, parser_named, struct_fields};
use p4_scopes::scope::Scope;
use p4_scopes::thing::Thing;
use p4_statement_rules::found::Found;
use p4_statement_rules::rule::ProgramRule;
use p4_tree::{Control, PTy, Param, Parser, Program, Top, Way};
use std::alloc::{AllocError, Global};

/// Whether a declaration is a parser or a control whose name is not in the table.
fn leaves_out(table: &IndexSet<&str>, top: &Top) -> bool
    ensures { result ≡ leaves_out (named table.now.keys) (top_of top.now) }
{
    match top {
        Top::Pars(_, parser) => !is_in(table, &parser.name),
        Top::Ctl(_, control) => !is_in(table, &control.name),
        Top::Const(_, _, _, _) | Top::Typedef(_, _, _) | Top::Header(_, _, _) => false,
        Top::Struct(_, _, _) | Top::Reg(_, _) => false,
    }
}

/// Whether some declaration is a parser or a control whose name is not in the table.
fn table_leaves_out(table: &IndexSet<&str>, tops: &[Top]) -> bool
    ensures { result ≡ leaves_some_out (named table.now.keys) (map top_of tops.now) }
{
    for top in tops {
        if leaves_out(table, top) {
            return true;
        }
    }
    false
}

/// Whether some declaration is a parser or a control that `main` does not name.
fn leaves_some_out(alloc: Global, main: &[Name], tops: &[Top]) -> Result<bool, AllocError>
    ensures { IfOk result (λ some. some ≡ leaves_some_out main.now (map top_of tops.now)) }
{
    let table = name_table(alloc, main)?;
    Ok(table_leaves_out(&table, tops))
}

/// Whether each name is a control's.
fn has_controls(tops: &[Top], names: &[Name]) -> bool
    ensures { result ≡ has_controls (map top_of tops.now) names.now }
{
    for name in names {
        if control_named(tops, name.as_str()).is_none() {
            return false;
        }
    }
    true
}

/// Whether `main` names a parser and five different controls.
fn names_parts(alloc: Global, tops: &[Top], main: &[Name]) -> Result<bool, AllocError>
    ensures { IfOk result (λ names. names ≡ names_parts (map top_of tops.now) main.now) }
{
    match main {
        [parser, controls @ ..] if controls.len() == 5 => {
            let twice = has_twice(alloc, controls)?;
            let found = parser_named(tops, parser.as_str()).is_some();
            Ok(found && has_controls(tops, controls) && !twice)
        }
        _ => Ok(false),
    }
}

/// What a parameter has to be.
#[derive(Clone, Copy)]
pub(crate) enum Wanted {
    /// Of this type of the architecture.
    Core(Way, &'static str),
    /// Of the struct of headers.
    Headers(Way),
    /// Of the struct of metadata.
    Metadata(Way),
}

fn is_named(t: &PTy, name: &str) -> bool
    ensures { result ≡ is_named t.now name.now }
{
    match t {
        PTy::Named(other) => other.as_str() == name,
        PTy::Bit(_) | PTy::Bool => false,
    }
}

/// What the fields of a struct have to be.
#[derive(Clone, Copy)]
enum Fields {
    Headers,
    Scalars,
}

impl Fields {
    fn fit(self, thing: Thing) -> bool
        ensures { result ≡ fits_of self thing }
    {
        match self {
            Fields::Headers => thing.is_header(),
            Fields::Scalars => thing.is_scalar(),
        }
    }
}

fn all_fields(wanted: Fields, scope: &Scope, fields: &[(PTy, Name)]) -> bool
    ensures { result ≡ all_fields (fits_of wanted) (scope_of scope.now) fields.now }
{
    for field in fields {
        if !wanted.fit(scope.thing_in(&field.0)) {
            return false;
        }
    }
    true
}

fn is_struct(thing: Thing) -> bool
    ensures { result ≡ is_struct thing }
{
    thing == Thing::Struct
}

/// Whether the name is that of a struct with such fields.
fn is_struct_of(wanted: Fields, scope: &Scope, tops: &[Top], name: &Name) -> bool
    ensures { result
        ≡ is_struct_of (fits_of wanted) (scope_of scope.now) (map top_of tops.now) name.now }
{
    let thing = scope.find_name(name).typed_thing();
    is_struct(thing) && all_fields(wanted, scope, struct_fields(tops, name.as_str()))
}

/// The name of the type of a parser's parameter, or an empty text.
fn parser_type<'a>(parser: Option<&'a Parser>, number: u8) -> &'a str
    ensures { result.now ≡ parser_type (option_map parser_of (lent parser.entry)) number }
{
    match parser {
        None => "",
        Some(parser) => param_type(&parser.params, number),
    }
}

/// The types that the parser's parameters name for the headers and the metadata, and whether they
/// are a struct of headers alone and one of single values.
#[derive(Drop)]
pub(crate) struct Structs {
    pub headers_type: Name,
    pub metadata_type: Name,
    pub has_headers: bool,
    pub has_metadata: bool,
}

/// The structs of a program, whose declarations are in sight.
pub(crate) fn structs_of(
    alloc: Global,
    scope: &Scope,
    program: &Program,
) -> Result<Structs, AllocError>
    ensures { IfOk result (λ structs. structs_view structs
        ≡ structs_of (scope_of scope.now) (program_of program.now)) }
{
    let parser = parser_named(&program.tops, named_in(&program.main, 0));
    let headers_type = Name::new(alloc, parser_type(parser, 1))?;
    let metadata_type = Name::new(alloc, parser_type(parser, 2))?;
    let has_headers = is_struct_of(Fields::Headers, scope, &program.tops, &headers_type);
    let has_metadata = is_struct_of(Fields::Scalars, scope, &program.tops, &metadata_type);
    Ok(Structs {
        headers_type,
        metadata_type,
        has_headers,
        has_metadata,
    })
}

/// Whether a parameter is what it has to be.
fn is_wanted(structs: &Structs, wanted: Wanted, param: &Param) -> bool
    ensures { result ≡ is_wanted (structs_view structs.now) (wanted_of wanted) param.now }
{
    match wanted {
        Wanted::Core(way, name) => way == param.way && is_named(&param.ty, name),
        Wanted::Headers(way) => {
            let named = is_named(&param.ty, structs.headers_type.as_str());
            way == param.way && named && structs.has_headers
        }
        Wanted::Metadata(way) => {
            let named = is_named(&param.ty, structs.metadata_type.as_str());
            way == param.way && named && structs.has_metadata
        }
    }
}

/// Whether the parameter of a number is what it has to be.
fn is_wanted_at(structs: &Structs, wants: &[Wanted], number: usize, param: &Param) -> bool
    ensures { result ≡ wanted_at (structs_view structs.now) (map wanted_of (drop number wants.now)) param.now }
{
    match wants.get(number) {
        Some(wanted) => is_wanted(structs, *wanted, param),
        None => false,
    }
}

/// Adds the tests of parameters. `at` is the program's place, where one is wanting.
fn check_wanted(found: &mut Found, at: u32, structs: &Structs, wants: &[Wanted], params: &[Param])
    ensures { found.new.first ≡ first_from found.old.first
        (wanted_tests at (structs_view structs.now) (map wanted_of wants.now) params.now) }
{
    for (i, param) in params.iter().enumerate() {
        let fits = is_wanted_at(structs, wants, i, param);
        found.test(param.at, ProgramRule::BadMain, !fits);
    }
    found.test(at, ProgramRule::BadMain, params.len() < wants.len());
}

/// Adds the tests of the parameters of the parser.
fn check_parser(found: &mut Found, at: u32, structs: &Structs, parser: Option<&Parser>)
    ensures { found.new.first ≡ first_from found.old.first
        (parser_params at (structs_view structs.now) (option_map parser_of (lent parser.entry))) }
{
    if let Some(parser) = parser {
        let wants = [
            Wanted::Core(Way::Plain, "packet_in"),
            Wanted::Headers(Way::Out),
            Wanted::Metadata(Way::Both),
            Wanted::Core(Way::Both, "standard_metadata_t"),
        ];
        check_wanted(found, at, structs, &wants, &parser.params);
    }
}

/// Adds the tests of the parameters of a control.
fn check_control(
    found: &mut Found,
    at: u32,
    structs: &Structs,
    wants: &[Wanted],
    control: Option<&Control>,
)
    ensures { found.new.first ≡ first_from found.old.first
        (control_params at (structs_view structs.now) (map wanted_of wants.now)
        (option_map control_of (lent control.entry))) }
{
    if let Some(control) = control {
        check_wanted(found, at, structs, wants, &control.params);
    }
}

/// Adds the tests of the parameters of the parts that `main` names.
fn check_parts(found: &mut Found, at: u32, structs: &Structs, tops: &[Top], main: &[Name])
    ensures { found.new.first ≡ first_from found.old.first
        (parts_params at (structs_view structs.now) (map top_of tops.now) main.now) }
{
    let checksum = [Wanted::Headers(Way::Both), Wanted::Metadata(Way::Both)];
    let standard = Wanted::Core(Way::Both, "standard_metadata_t");
    let apply = [
        Wanted::Headers(Way::Both),
        Wanted::Metadata(Way::Both),
        standard,
    ];
    let deparser = [
        Wanted::Core(Way::Plain, "packet_out"),
        Wanted::Headers(Way::Into),
    ];
    match main {
        [parser, verify, ingress, egress, compute, emitter] => {
            check_parser(found, at, structs, parser_named(tops, parser.as_str()));
            check_control(
                found,
                at,
                structs,
                &checksum,
                control_named(tops, verify.as_str()),
            );
            check_control(
                found,
                at,
                structs,
                &apply,
                control_named(tops, ingress.as_str()),
            );
            check_control(
                found,
                at,
                structs,
                &apply,
                control_named(tops, egress.as_str()),
            );
            check_control(
                found,
                at,
                structs,
                &checksum,
                control_named(tops, compute.as_str()),
            );
            check_control(
                found,
                at,
                structs,
                &deparser,
                control_named(tops, emitter.as_str()),
            );
        }
        [] | [_] | [_, _] | [_, _, _] | [_, _, _, _] | [_, _, _, _, _] => {}
        [_, _, _, _, _, _, _, ..] => {}
    }
}

/// Adds the tests of `main`. The declarations of the program are in sight.
pub(crate) fn check_main(
    found: &mut Found,
    structs: &Structs,
    program: &Program,
) -> Result<(), AllocError>
    ensures { IfOk result (λ _. (s : scopes.Scope) → structs_view structs.now ≡ structs_of s (program_of program.now)
        → found.new.first ≡ first_from found.old.first (main_tests s (program_of program.now))) }
{
    let named = names_parts(found.alloc(), &program.tops, &program.main)?;
    found.test(program.at, ProgramRule::BadMain, !named);
    let left_out = leaves_some_out(found.alloc(), &program.main, &program.tops)?;
    found.test(program.at, ProgramRule::BadMain, left_out);
    check_parts(found, program.at, structs, &program.tops, &program.main);
    Ok(())
}
