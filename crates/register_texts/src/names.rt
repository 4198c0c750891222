//! The names of a program's registers.

ghost use Rattle.std.specs.Prelude.{◌≡◌, ◌++◌, map, IfOk, OnOk, string_bytes};
ghost use Rattle.p4_tree.specs.View.{local_of, program_of, top_of};
ghost use Rattle.p4_types.specs.Numbers as numbers;

use lex_text::Name;
use p4_tree::{Local, Program, Top};
use std::alloc::{AllocError, Global};

/// The name of what a control declares.
fn dotted(alloc: Global, control: &Name, name: &Name) -> Result<String, AllocError>
    ensures { IfOk result (λ s. string_bytes s ≡ numbers.dotted control.now name.now) }
{
    let mut text = String::from_str(alloc, control.as_str())?;
    text.push_str(".")?;
    text.push_str(name.as_str())?;
    Ok(text)
}

/// The name of a control's register goes behind others.
fn put_local(
    alloc: Global,
    found: &mut Vec<String>,
    control: &Name,
    local: &Local,
) -> Result<(), AllocError>
    ensures { OnOk result (map string_bytes found.new.items
        ≡ map string_bytes found.old.items
        ++ numbers.all_dotted control.now (numbers.local_name numbers.registers (local_of local.now))) }
{
    match local {
        Local::Reg(_, register) => found.push(dotted(alloc, control, &register.name)?)?,
        Local::Act(_, _) | Local::Tab(_, _) => {}
        Local::Const(_, _, _, _) | Local::Var(_, _, _, _) => {}
    }
    Ok(())
}

/// The names of a control's registers go behind others.
fn put_locals(
    alloc: Global,
    found: &mut Vec<String>,
    control: &Name,
    locals: &[Local],
) -> Result<(), AllocError>
    ensures { OnOk result (map string_bytes found.new.items
        ≡ map string_bytes found.old.items
        ++ numbers.locals_names numbers.registers control.now (map local_of locals.now)) }
{
    for local in locals {
        put_local(alloc, found, control, local)?;
    }
    Ok(())
}

/// The names of the registers of a declaration at top level go behind others.
fn put_top(alloc: Global, found: &mut Vec<String>, top: &Top) -> Result<(), AllocError>
    ensures { OnOk result (map string_bytes found.new.items
        ≡ map string_bytes found.old.items ++ numbers.top_names numbers.registers (top_of top.now)) }
{
    match top {
        Top::Reg(_, register) => {
            found.push(String::from_str(alloc, register.name.as_str())?)?;
            Ok(())
        }
        Top::Ctl(_, control) => put_locals(alloc, found, &control.name, &control.locals),
        Top::Const(_, _, _, _) | Top::Typedef(_, _, _) | Top::Header(_, _, _) => Ok(()),
        Top::Struct(_, _, _) | Top::Pars(_, _) => Ok(()),
    }
}

/// The names of the registers of declarations at top level.
fn tops_names(alloc: Global, tops: &[Top]) -> Result<Vec<String>, AllocError>
    ensures { IfOk result (λ v. map string_bytes v.items
        ≡ numbers.tops_names numbers.registers (map top_of tops.now)) }
{
    let mut found = Vec::new(alloc);
    for top in tops {
        put_top(alloc, &mut found, top)?;
    }
    Ok(found)
}

/// The names of a program's registers, in the order of the text: that of one in a control is
/// `Control.name`.
pub fn register_names(alloc: Global, program: &Program) -> Result<Vec<String>, AllocError>
    ensures { IfOk result (λ v. map string_bytes v.items
        ≡ numbers.names numbers.registers (program_of program.now)) }
{
    tops_names(alloc, &program.tops)
}
