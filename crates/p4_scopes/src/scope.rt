//! The names in sight at a place of a program.

ghost use Rattle.std.specs.Prelude.{◌≡◌, ◌≤◌, List, ◌-◌, ◌∷◌, [], length, take, IfOk, OnOk, OnErr};
ghost use Rattle.p4_tree.specs.View.{expr_of};
ghost use Rattle.p4_scopes.specs.Scopes.{declare, thing_in, kind_in, kinds_in, fields_bits, own, cast_kind};
ghost use Rattle.p4_scopes.specs.View.{Declaration, scope_of, with_declaration, what_of, stands_of};
ghost use Rattle.p4_scopes.specs.Resolving.{last_at, name_resolved, resolve, field_of, walk};
ghost use Rattle.p4_scopes.specs.Entries.{what_in, entry_behind, IsKnown, IsFieldTable};

use crate::core_names::{core, core_resolved, standard_field};
use crate::entry::{Declared, Entry, entry_field, entry_resolved};
use crate::kind::{Kind, as_number, binary_kind, choice_kind, slice_width, width_in};
use crate::resolved::Resolved;
use crate::stands::Stands;
use crate::thing::{Access, Thing};
use crate::what::What;
use indexmap::IndexMap;
use lex_text::Name;
use p4_tree::{Expr, PTy};
use std::alloc::{AllocError, Global};
use std::marker::Model;

/// The names in sight at a place of a program. Contracts see the declarations, oldest first.
#[derive(Drop)]
pub struct Scope<'a> {
    alloc: Global,
    entries: Vec<Entry<'a>>,
    /// The number of the last declaration of each name, or none where it is out of sight again.
    names: IndexMap<&'a str, Option<usize>>,
}

impl<'a> Model for Scope<'a> {
    ghost use Rattle.std.specs.Prelude.{List};
    ghost use Rattle.p4_scopes.specs.View.{Declaration};

    ghost Value = { List Declaration };

    ghost use Rattle.p4_scopes.specs.Kept.{declarations, IsKept};

    ghost view = { declarations };

    ghost invariant = { IsKept };
}

/// What a declared name stands for by itself.
fn alone<'s, 'a>(d: &'s Declared<'a>) -> Stands<'s>
    ensures { (ds : List Declaration) → stands_of result ≡ entry_behind ds d.now [] }
{
    match d {
        Declared::Alias(_, t) => Stands::Typed(false, *t),
        Declared::Fields(h, _, _) => Stands::Typed(false, *h),
        Declared::Value(a, _, r) => Stands::Held(*a, r.thing()),
        Declared::Register(_, k) => Stands::Cells(*k),
        Declared::Action(_, most, kinds) => Stands::Act(kinds, *most),
        Declared::Table(most) => Stands::Rows(*most),
        Declared::State => Stands::State,
        Declared::Part => Stands::Other,
    }
}

/// What a cast makes.
pub fn cast_kind(t: &PTy) -> Kind
    ensures { result ≡ cast_kind t.now }
{
    match t {
        PTy::Bit(w) => Kind::Number(*w),
        PTy::Bool => Kind::Truth,
        PTy::Named(_) => Kind::Unknown,
    }
}

impl<'a> Scope<'a> {
    /// What is in sight before the first declaration.
    pub fn core(alloc: Global) -> Scope<'a>
        ensures { result ≡ [] }
    {
        Scope {
            alloc,
            entries: Vec::new(alloc),
            names: IndexMap::new(alloc),
        }
    }

    /// How many declarations there are.
    pub fn mark(&self) -> usize
        ensures { result ≡ length self.now }
    {
        self.entries.len()
    }

    /// The number of the last declaration of a name.
    fn newest(&self, name: &str) -> Option<usize>
        ensures { result ≡ last_at self.now name.now }
    {
        match self.names.get(name) {
            Some(i) => *i,
            None => None,
        }
    }

    /// What a name of a type stands for.
    fn name_resolved(&self, name: &Name) -> Resolved
        ensures { result ≡ name_resolved self.now name.now (last_at self.now name.now) }
    {
        match self.newest(name.as_str()) {
            None => core_resolved(name),
            Some(i) => match self.entries.get(i) {
                Some(e) => entry_resolved(&e.declared, i),
                None => Resolved::Missing,
            },
        }
    }

    /// A type where it is used.
    fn resolve(&self, t: &PTy) -> Resolved
        ensures { result ≡ resolve self.now t.now }
    {
        match t {
            PTy::Bit(w) => Resolved::Single(false, Thing::Scalar(Kind::Number(*w))),
            PTy::Bool => Resolved::Single(false, Thing::Scalar(Kind::Truth)),
            PTy::Named(x) => self.name_resolved(x),
        }
    }

    /// A field of a type.
    fn field(&self, from: Resolved, name: &Name) -> Resolved
        ensures { result ≡ field_of self.now from name.now }
    {
        match from {
            Resolved::Declared(_, i) => match self.entries.get(i) {
                Some(e) => entry_field(&e.declared, name),
                None => Resolved::Missing,
            },
            Resolved::Standard => standard_field(name),
            Resolved::Missing => Resolved::Missing,
            Resolved::Single(_, _) => Resolved::Missing,
        }
    }

    /// What a path behind a type stands for.
    fn walk<'s>(&self, from: Resolved, path: &[Name]) -> Stands<'s>
        ensures { stands_of result ≡ walk self.now from path.now }
    {
        let mut at = from;
        for x in path {
            at = self.field(at, x);
        }
        at.stands()
    }

    /// What a path behind a declared name stands for.
    fn behind<'s>(&'s self, d: &'s Declared<'a>, rest: &[Name]) -> Stands<'s>
        ensures { stands_of result ≡ entry_behind self.now d.now rest.now }
    {
        match rest {
            [] => alone(d),
            [x, more @ ..] => match d {
                Declared::Fields(_, _, _) => self.walk(entry_field(d, x), more),
                Declared::Value(a, _, r) => self.walk(*r, rest).as_held(*a),
                _ => Stands::Missing,
            },
        }
    }

    /// What a path of a name and those behind it stands for.
    fn find_from<'s>(&'s self, name: &Name, rest: &[Name]) -> Stands<'s>
        ensures { stands_of result ≡ scope_of self.now (name.now ∷ rest.now) }
    {
        match self.newest(name.as_str()) {
            None => core(name, rest),
            Some(i) => match self.entries.get(i) {
                Some(e) => self.behind(&e.declared, rest),
                None => Stands::Missing,
            },
        }
    }

    /// What a path stands for.
    pub fn find<'s>(&'s self, path: &[Name]) -> Stands<'s>
        ensures { stands_of result ≡ scope_of self.now path.now }
    {
        match path {
            [] => Stands::Missing,
            [x, rest @ ..] => self.find_from(x, rest),
        }
    }

    /// What a name stands for.
    pub fn find_name<'s>(&'s self, name: &Name) -> Stands<'s>
        ensures { stands_of result ≡ scope_of self.now (name.now ∷ []) }
    {
        self.find_from(name, &[])
    }

    /// What a type is.
    pub fn thing_in(&self, t: &PTy) -> Thing
        ensures { result ≡ thing_in (scope_of self.now) t.now }
    {
        self.resolve(t).thing()
    }

    /// The kind of a type's values.
    pub fn kind_in(&self, t: &PTy) -> Kind
        ensures { result ≡ kind_in (scope_of self.now) t.now }
    {
        self.thing_in(t).kind()
    }

    /// The kinds of parameters.
    fn kinds_in(&self, params: &[(PTy, Name)]) -> Result<Vec<Kind>, AllocError>
        ensures { IfOk result (λ ks. ks.items ≡ kinds_in (scope_of self.now) params.now) }
    {
        let mut kinds = Vec::new(self.alloc);
        for p in params {
            kinds.push(self.kind_in(&p.0))?;
        }
        Ok(kinds)
    }

    /// The bits of the fields of a header, as far as 32 bits count them.
    pub fn fields_bits(&self, fields: &[(PTy, Name)]) -> u32
        ensures { result ≡ fields_bits (scope_of self.now) fields.now }
    {
        let mut bits: u32 = 0;
        for f in fields {
            bits = bits.saturating_add(u32::from(width_in(self.kind_in(&f.0))));
        }
        bits
    }

    /// The fields of a header or a struct by their names. Of those of one name the first counts.
    fn field_table(
        &self,
        fields: &'a [(PTy, Name)],
    ) -> Result<IndexMap<&'a str, Resolved>, AllocError>
        ensures { IfOk result (λ t. IsFieldTable self.now fields.now t.entries) }
    {
        let mut table = IndexMap::new(self.alloc);
        for f in fields {
            let name = f.1.as_str();
            if !table.contains_key(name) {
                table.insert(name, self.resolve(&f.0))?;
            }
        }
        Ok(table)
    }

    /// What is declared, with what its types are here.
    fn known(&self, what: What<'a>) -> Result<Declared<'a>, AllocError>
        ensures what { IfOk result (λ d. what_in d ≡ what_of what.entry) }
        ensures known { IfOk result (IsKnown self.now) }
    {
        match what {
            What::Alias(t) => Ok(Declared::Alias(t, self.thing_in(t))),
            What::Fields(h, fields) => Ok(Declared::Fields(h, fields, self.field_table(fields)?)),
            What::Value(a, t) => Ok(Declared::Value(a, t, self.resolve(t))),
            What::Register(t) => Ok(Declared::Register(t, self.kind_in(t))),
            What::Action(params, most) => {
                Ok(Declared::Action(params, most, self.kinds_in(params)?))
            }
            What::Table(most) => Ok(Declared::Table(most)),
            What::State => Ok(Declared::State),
            What::Part => Ok(Declared::Part),
        }
    }

    /// Puts a name into sight.
    pub fn declare(&mut self, name: &'a Name, what: What<'a>) -> Result<(), AllocError>
        ensures ok { OnOk result (self.new ≡ with_declaration self.old name.now (what_of what.entry)) }
        ensures declared { OnOk result (scope_of self.new ≡ declare (scope_of self.old) name.now (what_of what.entry)) }
        ensures err { OnErr result (self.new ≡ self.old) }
    {
        self.declare_text(name.as_str(), what)
    }

    /// Puts a name that is no program's into sight.
    pub fn declare_text(&mut self, name: &'a str, what: What<'a>) -> Result<(), AllocError>
        ensures ok { OnOk result (self.new ≡ with_declaration self.old name.now (what_of what.entry)) }
        ensures declared { OnOk result (scope_of self.new ≡ declare (scope_of self.old) name.now (what_of what.entry)) }
        ensures err { OnErr result (self.new ≡ self.old) }
    {
        let declared = self.known(what)?;
        let older = self.newest(name);
        let number = self.entries.len();
        self.entries.push(Entry {
            name,
            declared,
            older,
        })?;
        match self.names.insert(name, Some(number)) {
            Ok(_) => Ok(()),
            Err(_) => {
                self.entries.truncate(number);
                Err(AllocError)
            }
        }
    }

    /// Takes the last declaration out of sight.
    fn leave(&mut self)
        ensures { self.new ≡ take (length self.old - 1) self.old }
    {
        let left = self.entries.len().saturating_sub(1);
        if let Some(e) = self.entries.get(left) {
            let (name, older) = (e.name, e.older);
            self.entries.truncate(left);
            let _ = self.names.insert(name, older);
        }
    }

    /// Takes what was declared behind a mark out of sight.
    pub fn back(&mut self, mark: usize)
        ensures { self.new ≡ take mark self.old }
    {
        while mark < self.mark() {
            self.leave();
        }
    }

    /// What an expression is, whatever its place wants.
    pub fn own(&self, e: &Expr) -> Kind
        ensures { result ≡ own (scope_of self.now) (expr_of e.now) }
    {
        match e {
            Expr::Num(_, n) => Kind::Number(n.width),
            Expr::Flag(_, _) => Kind::Truth,
            Expr::Path(_, x) => self.find(x).value_kind(),
            Expr::Valid(_, _) => Kind::Truth,
            Expr::Applied(_, _, _) => Kind::Truth,
            Expr::ErrorName(_, _) => Kind::Error,
            Expr::Not(_, _) => Kind::Truth,
            Expr::Invert(_, a) => as_number(self.own(a)),
            Expr::Negate(_, a) => as_number(self.own(a)),
            Expr::Bin(_, op, a, b) => binary_kind(*op, self.own(a), self.own(b)),
            Expr::Choice(_, _, a, b) => choice_kind(self.own(a), self.own(b)),
            Expr::Slice(_, _, h, l) => Kind::Number(slice_width(*h, *l)),
            Expr::Cast(_, t, _) => cast_kind(t),
        }
    }
}
