//! A program whose headers and metadata are one struct, with two.

ghost use Rattle.std.specs.Prelude.{◌≡◌, ◌∷◌, [], IfOk, codes, if◌then◌else◌, map};
ghost use Rattle.p4_tree.specs.Tree as p4;
ghost use Rattle.p4_tree.specs.View.{control_of, parser_of, program_of, top_of};
ghost use Rattle.parted_programs.specs.Parted.{control_parted, params_parted, parted, parser_parted, retyped, top_parted, tops_parted, with_new, with_two};
ghost use Rattle.linked_trees.specs.View.{place_of};

use crate::controls::{Place, place_in};
use crate::declarations::struct_at;
use lex_text::Name;
use p4_tree::{Control, PTy, Param, Parser, Program, Top, copy_params};
use p4_values::{copy_path, same_text};
use std::alloc::{AllocError, Global};

const NEW_METADATA: &str = "hydra_x_metadata";

/// A parameter, of the new struct or as it is.
fn param_parted(alloc: Global, new: bool, q: &Param) -> Result<Param, AllocError>
    ensures { IfOk result (λ p. p ≡ (if new then with_new q.now else q.now)) }
{
    if new {
        Ok(Param {
            at: q.at,
            way: q.way,
            ty: PTy::Named(Name::new(alloc, NEW_METADATA)?),
            name: q.name.copy(alloc)?,
        })
    } else {
        q.copy(alloc)
    }
}

/// The parameter at a position is of the new struct.
fn retyped(alloc: Global, at: usize, params: &[Param]) -> Result<Vec<Param>, AllocError>
    ensures { IfOk result (λ v. v.items ≡ retyped at params.now) }
{
    let mut all = Vec::new(alloc);
    for q in params {
        let new = all.len() == at;
        all.push(param_parted(alloc, new, q)?)?;
    }
    Ok(all)
}

/// The deparser has no parameter for the metadata.
fn params_parted(alloc: Global, place: Place, params: &[Param]) -> Result<Vec<Param>, AllocError>
    ensures { IfOk result (λ v. v.items ≡ params_parted (place_of place) params.now) }
{
    match place {
        Place::Ingress => retyped(alloc, 1, params),
        Place::Egress => retyped(alloc, 1, params),
        Place::Deparser => copy_params(alloc, params),
        Place::Other => retyped(alloc, 1, params),
    }
}

fn parser_parted(alloc: Global, d: &Parser) -> Result<Parser, AllocError>
    ensures { IfOk result (λ p. parser_of p ≡ parser_parted (parser_of d.now)) }
{
    let mut copy = d.copy(alloc)?;
    copy.params = retyped(alloc, 2, &d.params)?;
    Ok(copy)
}

fn control_parted(alloc: Global, place: Place, c: &Control) -> Result<Control, AllocError>
    ensures { IfOk result (λ k. control_of k ≡ control_parted (place_of place) (control_of c.now)) }
{
    let mut copy = c.copy(alloc)?;
    copy.params = params_parted(alloc, place, &c.params)?;
    Ok(copy)
}

fn top_parted(alloc: Global, main: &[Name], top: &Top) -> Result<Top, AllocError>
    ensures { IfOk result (λ t. top_of t ≡ top_parted main.now (top_of top.now)) }
{
    match top {
        Top::Pars(at, d) => Ok(Top::Pars(*at, parser_parted(alloc, d)?)),
        Top::Ctl(at, c) => Ok(Top::Ctl(*at, control_parted(alloc, place_in(main, &c.name), c)?)),
        Top::Struct(_, _, _) => top.copy(alloc),
        Top::Const(_, _, _, _) => top.copy(alloc),
        Top::Typedef(_, _, _) => top.copy(alloc),
        Top::Header(_, _, _) => top.copy(alloc),
        Top::Reg(_, _) => top.copy(alloc),
    }
}

fn new_struct(alloc: Global) -> Result<Top, AllocError>
    ensures { IfOk result (λ t. top_of t ≡ p4.struct_type 0 (codes "hydra_x_metadata") []) }
{
    Ok(Top::Struct(0, Name::new(alloc, NEW_METADATA)?, Vec::new(alloc)))
}

/// The new struct stands in front.
fn tops_parted(alloc: Global, main: &[Name], list: &[Top]) -> Result<Vec<Top>, AllocError>
    ensures { IfOk result (λ v. map top_of v.items ≡ tops_parted main.now (map top_of list.now)) }
{
    let mut tops = Vec::new(alloc);
    tops.push(new_struct(alloc)?)?;
    for top in list {
        tops.push(top_parted(alloc, main, top)?)?;
    }
    Ok(tops)
}

fn with_two(alloc: Global, program: &Program) -> Result<Program, AllocError>
    ensures { IfOk result (λ q. program_of q ≡ with_two (program_of program.now)) }
{
    let tops = tops_parted(alloc, &program.main, &program.tops)?;
    let main = copy_path(alloc, &program.main)?;
    Ok(Program {
        at: program.at,
        tops,
        main,
    })
}

/// A program with a struct of headers and another of metadata. One that has both is copied.
pub fn parted(alloc: Global, program: &Program) -> Result<Program, AllocError>
    ensures { IfOk result (λ q. program_of q ≡ parted (program_of program.now)) }
{
    if same_text(struct_at(program, 1), struct_at(program, 2)) {
        with_two(alloc, program)
    } else {
        program.copy(alloc)
    }
}
