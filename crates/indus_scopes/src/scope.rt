//! What a name stands for at a place.

ghost use Rattle.std.specs.Prelude.{◌≡◌, [], map};
ghost use Rattle.lex_text.specs.Names.{same_text};
ghost use Rattle.indus_tree.specs.View.{decl_of, expr_of, shape_of};
ghost use Rattle.indus_scopes.specs.Scopes.{item_of, builtin_of, role_of, stands, read_kind, index_kind, scalar_kind, element_kind, shape_item, own};
ghost use Rattle.indus_scopes.specs.Sights.{scope_of};

use crate::declared::Declared;
use crate::kind::{Kind, as_number, is_open, kind_of};
use crate::sight::Scope;
use indexmap::IndexSet;
use indus_tree::{Decl, DeclKind, Expr, Op, Shape};
use lex_text::Name;
use std::alloc::Global;

/// A block of a property.
#[derive(Clone, Copy, Debug, PartialEq, Eq)]
pub enum Block {
    Init,
    Tele,
    Check,
}

/// A surrounding loop.
#[derive(Clone, Copy)]
pub struct Loop<'a> {
    pub names: &'a [Name],
    pub lists: &'a [Name],
}

/// What a name stands for.
#[derive(Clone, Copy)]
pub enum Role<'a> {
    Missing,
    Item(Kind),
    Builtin(Kind),
    Variable(&'a Decl),
}

/// Whether two names are the same.
pub fn same(a: &Name, b: &Name) -> bool
    ensures { result ≡ same_text a.now b.now }
{
    a.as_str() == b.as_str()
}

/// Whether a name has this text.
pub fn is(name: &Name, text: &str) -> bool
    ensures { result ≡ same_text name.now text.now }
{
    name.as_str() == text
}

/// One item of a list.
pub fn shape_item(s: &Shape) -> Kind
    ensures { result ≡ shape_item (shape_of s.now) }
{
    match s {
        Shape::List(t, _) => kind_of(*t),
        _ => Kind::Unknown,
    }
}

/// A name of the language's own.
pub fn builtin_of(name: &Name) -> Option<Kind>
    ensures { result ≡ builtin_of name.now }
{
    if is(name, "first_hop") || is(name, "last_hop") {
        Some(Kind::Truth)
    } else if is(name, "switch_id") {
        Some(Kind::Number(16))
    } else {
        None
    }
}

impl<'a> Scope<'a> {
    /// What is in sight outside loops.
    pub fn new(alloc: Global, edition: u8, decls: Declared<'a>, block: Block) -> Scope<'a>
        ensures { scope_of result ≡ record { edition = edition; decls = map decl_of decls.entry.decls.now; loops = []; block = block } }
    {
        Scope {
            edition,
            decls,
            loops: Vec::new(alloc),
            block,
            items: IndexSet::new(alloc),
            kinds: Vec::new(alloc),
        }
    }

    /// An item of a surrounding loop.
    fn item(&self, name: &Name) -> Option<Kind>
        ensures { result ≡ item_of (scope_of self.now).decls (scope_of self.now).loops name.now }
    {
        match self.items.get_index_of(name.as_str()) {
            Some(i) => self.kinds.get(i).copied(),
            None => None,
        }
    }

    /// What a name stands for.
    pub fn role(&self, name: &Name) -> Role<'a>
        ensures { stands result ≡ role_of (scope_of self.now) name.now }
    {
        match self.item(name) {
            Some(k) => Role::Item(k),
            None => match builtin_of(name) {
                Some(k) => Role::Builtin(k),
                None => match self.decls.find(name) {
                    Some(d) => Role::Variable(d),
                    None => Role::Missing,
                },
            },
        }
    }
}

fn scalar_kind(s: &Shape) -> Kind
    ensures { result ≡ scalar_kind (shape_of s.now) }
{
    match s {
        Shape::One(t) => kind_of(*t),
        _ => Kind::Unknown,
    }
}

fn element_kind(k: DeclKind, s: &Shape) -> Kind
    ensures { result ≡ element_kind k (shape_of s.now) }
{
    match s {
        Shape::List(t, _) => match k {
            DeclKind::Sensor => kind_of(*t),
            _ => Kind::Unknown,
        },
        Shape::DictOf(_, t) => kind_of(*t),
        _ => Kind::Unknown,
    }
}

/// What is read by the name alone.
pub fn read_kind(r: &Role) -> Kind
    ensures { result ≡ read_kind (stands r.now) }
{
    match r {
        Role::Missing => Kind::Unknown,
        Role::Item(k) => *k,
        Role::Builtin(k) => *k,
        Role::Variable(d) => scalar_kind(&d.shape),
    }
}

/// What is read at a key.
pub fn index_kind(r: &Role) -> Kind
    ensures { result ≡ index_kind (stands r.now) }
{
    match r {
        Role::Variable(d) => element_kind(d.kind, &d.shape),
        _ => Kind::Unknown,
    }
}

impl<'a> Scope<'a> {
    /// What an expression is of its own.
    pub fn own(&self, e: &Expr) -> Kind
        ensures { result ≡ own (scope_of self.now) (expr_of e.now) }
    {
        match e {
            Expr::Num(_, n) => Kind::Number(n.width),
            Expr::Flag(_, _) => Kind::Truth,
            Expr::Read(_, x) => read_kind(&self.role(x)),
            Expr::Length(_, _) => Kind::Number(8),
            Expr::Index(_, x, _) => index_kind(&self.role(x)),
            Expr::Member(_, _, _) => Kind::Truth,
            Expr::Not(_, _) => Kind::Truth,
            Expr::Invert(_, a) => as_number(self.own(a)),
            Expr::Bin(_, op, a, b) => match op {
                Op::Mul | Op::Add | Op::Sub | Op::BitAnd | Op::BitXor | Op::BitOr => {
                    let left = self.own(a);
                    if is_open(left) {
                        as_number(self.own(b))
                    } else {
                        as_number(left)
                    }
                }
                Op::Shl | Op::Shr => as_number(self.own(a)),
                Op::Less | Op::LessEq | Op::More | Op::MoreEq => Kind::Truth,
                Op::Equal | Op::Differ | Op::Both | Op::Either => Kind::Truth,
            },
            Expr::Cast(_, w, _) => Kind::Number(*w),
        }
    }
}
