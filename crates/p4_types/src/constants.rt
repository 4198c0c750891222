//! The words of the constants at top level, each computed once.

ghost use Rattle.std.specs.Prelude.{◌≡◌, ℕ, List, IfOk, map};
ghost use Rattle.p4_tree.specs.View.{expr_of, top_of, program_of};
ghost use Rattle.p4_meaning.specs.Scope.{Scope, constant_named};
ghost use Rattle.p4_meaning.specs.Under.{with_constant, with_type, no_scope, behind_top, behind_tops};
ghost use Rattle.p4_meaning.specs.Laws.{AreWords};
ghost use Rattle.p4_types.specs.Constants.{constant_of};
ghost use Rattle.p4_types.specs.Words.{constants_store, or_none, width_in, IsBehind};
ghost use Rattle.p4_types.specs.Kept.{at_name};

use bit_values::{Bits, sound_width};
use indexmap::IndexMap;
use lex_text::Name;
use p4_tree::{Expr, PTy, Program, Top};
use p4_values::{Sight, value_of, width_of};
use std::alloc::{AllocError, Global};

/// The words of constants by their names.
#[derive(Drop)]
pub(crate) struct Constants {
    words: IndexMap<String, Bits>,
}

impl Constants {
    /// The word of the constant of a name.
    pub(crate) fn word(&self, name: &str) -> Option<Bits>
        ensures { result ≡ at_name self.now.words.entries name.now }
    {
        self.words.get(name).copied()
    }
}

impl Sight for Constants {
    ghost store = { constants_store };

    fn read(&self, path: &[Name]) -> Bits {
        match path {
            [name] => self.word(name.as_str()).unwrap_or_default(),
            [] | [_, _, ..] => Bits::default(),
        }
    }

    fn header(&self, _path: &[Name]) -> Option<bool> {
        None
    }
}

/// What is known behind declarations at top level: constants, and the widths of typedefs.
#[derive(Drop)]
struct Known {
    constants: Constants,
    widths: IndexMap<String, u8>,
}

impl Known {
    fn new(alloc: Global) -> Known
        ensures { IsBehind result no_scope }
    {
        let constants = Constants {
            words: IndexMap::new(alloc),
        };
        Known {
            constants,
            widths: IndexMap::new(alloc),
        }
    }

    /// The bits of the values of another name of a type; 0 where there is none.
    fn type_width(&self, name: &str) -> u8
        ensures { result ≡ or_none (at_name self.now.widths.entries name.now) }
    {
        match self.widths.get(name).copied() {
            Some(width) => width,
            None => 0,
        }
    }

    /// The bits of a type's values.
    fn width(&self, t: &PTy) -> u8
        ensures { result ≡ width_in self.now.widths.entries t.now }
    {
        match t {
            PTy::Named(name) => self.type_width(name.as_str()),
            PTy::Bit(_) | PTy::Bool => width_of(t),
        }
    }

    /// Puts the word of a constant into sight.
    fn add_constant(
        &mut self,
        alloc: Global,
        t: &PTy,
        name: &Name,
        e: &Expr,
    ) -> Result<(), AllocError>
        ensures { IfOk result (λ _. (sc : Scope) → AreWords sc → IsBehind self.old sc
            → IsBehind self.new (with_constant sc t.now name.now (expr_of e.now))) }
    {
        let width = self.width(t);
        let word = value_of(e, width, &self.constants).cast(sound_width(width));
        let name = String::from_str(alloc, name.as_str())?;
        self.constants.words.insert(name, word)?;
        Ok(())
    }

    /// Puts another name of a type into sight.
    fn add_type(&mut self, alloc: Global, t: &PTy, name: &Name) -> Result<(), AllocError>
        ensures { IfOk result (λ _. (sc : Scope) → AreWords sc → IsBehind self.old sc
            → IsBehind self.new (with_type sc t.now name.now)) }
    {
        let width = self.width(t);
        let name = String::from_str(alloc, name.as_str())?;
        self.widths.insert(name, width)?;
        Ok(())
    }

    /// Puts into sight what a declaration declares.
    fn add(&mut self, alloc: Global, top: &Top) -> Result<(), AllocError>
        ensures { IfOk result (λ _. (sc : Scope) → AreWords sc → IsBehind self.old sc
            → IsBehind self.new (behind_top sc (top_of top.now))) }
    {
        match top {
            Top::Const(_, t, name, e) => self.add_constant(alloc, t, name, e),
            Top::Typedef(_, t, name) => self.add_type(alloc, t, name),
            Top::Header(_, _, _) | Top::Struct(_, _, _) | Top::Reg(_, _) => Ok(()),
            Top::Pars(_, _) | Top::Ctl(_, _) => Ok(()),
        }
    }
}

/// The words of the constants of a program at top level.
pub(crate) fn constants_of(alloc: Global, program: &Program) -> Result<Constants, AllocError>
    ensures { IfOk result (λ c. (x : List ℕ)
        → at_name c.words.entries x ≡ constant_of (program_of program.now) x) }
{
    let constants = tops_constants(alloc, &program.tops)?;
    Ok(constants)
}

/// The words of the constants among declarations.
fn tops_constants(alloc: Global, tops: &[Top]) -> Result<Constants, AllocError>
    ensures { IfOk result (λ c. (x : List ℕ) → at_name c.words.entries x
        ≡ constant_named (behind_tops no_scope (map top_of tops.now)).constants x) }
{
    let mut known = Known::new(alloc);
    for top in tops {
        known.add(alloc, top)?;
    }
    Ok(known.constants)
}
