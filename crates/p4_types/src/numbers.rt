//! Tables, registers and actions by their numbers.

ghost use Rattle.std.specs.Prelude.{◌≡◌, ◌+◌, [], ◌∷◌, List, ℕ, None, IfOk, map, string_bytes};
ghost use Rattle.p4_tree.specs.View.{local_of, top_of, program_of};
ghost use Rattle.p4_types.specs.Numbers.{dotted, local_name, locals_names, top_names, tops_names, names, number_in};
ghost use Rattle.p4_types.specs.Kept.{sort_of, as_list, number_in_group, lesser, Gains, IsGroup, IsNumbering, Adds};

use indexmap::IndexMap;
use lex_text::Name;
use p4_tree::{Local, Program, Top};
use std::alloc::{AllocError, Global};

/// Of what names are.
#[derive(Clone, Copy)]
pub(crate) enum Sort {
    Tables,
    Registers,
    Actions,
}

/// The next number. There is none behind 32 bits, and no memory holds so many names.
fn one_more(count: u32) -> Result<u32, AllocError>
    ensures { IfOk result (λ n. n ≡ count + 1) }
{
    match count.checked_add(1) {
        Some(more) => Ok(more),
        None => Err(AllocError),
    }
}

/// Names that begin alike, with their numbers. Of those of one name the first counts.
#[derive(Drop)]
pub(crate) struct Group {
    /// What all of them begin with.
    front: String,
    /// What stands behind that.
    numbers: IndexMap<String, u32>,
    /// The number of the next name.
    next: u32,
}

impl Group {
    /// No name.
    fn new(alloc: Global, front: String, next: u32) -> Group
        ensures front { result.front ≡ front }
        ensures next { result.next ≡ next }
        ensures found { (x : List ℕ) → number_in_group result x ≡ None }
    {
        Group {
            front,
            numbers: IndexMap::new(alloc),
            next,
        }
    }

    /// Gives the name with this behind the front the next number.
    fn add(&mut self, name: String) -> Result<(), AllocError>
        ensures { IfOk result (λ _. Gains self.old self.new (string_bytes name ∷ [])) }
    {
        let next = one_more(self.next)?;
        if self.numbers.contains_key(name.as_str()) {
            self.next = next;
            return Ok(());
        }
        self.numbers.insert(name, self.next)?;
        self.next = next;
        Ok(())
    }

    /// The number of a name.
    fn number(&self, name: &str) -> Option<u32>
        ensures { result ≡ number_in_group self.now name.now }
    {
        match name.strip_prefix(self.front.as_str()) {
            Some(rest) => self.numbers.get(rest).copied(),
            None => None,
        }
    }
}

/// The lesser of two numbers, where there are.
fn lesser(m: Option<u32>, n: Option<u32>) -> Option<u32>
    ensures { result ≡ lesser m n }
{
    match m {
        Some(m) => match n {
            Some(n) => Some(m.min(n)),
            None => Some(m),
        },
        None => n,
    }
}

/// Names with their numbers. A control's name stands there once, whatever the control declares.
#[derive(Drop)]
pub(crate) struct Numbering {
    /// The names at top level; the next number is that of the whole numbering.
    plain: Group,
    /// The names in each control.
    controls: Vec<Group>,
}

impl Numbering {
    /// No name.
    fn new(alloc: Global) -> Numbering
        ensures { IsNumbering result [] }
    {
        Numbering {
            plain: Group::new(alloc, String::new(alloc), 0),
            controls: Vec::new(alloc),
        }
    }

    /// Gives a name at top level the next number.
    fn add(&mut self, name: String) -> Result<(), AllocError>
        ensures { IfOk result (λ _. Adds self.old self.new (string_bytes name ∷ [])) }
    {
        self.plain.add(name)?;
        Ok(())
    }

    /// Gives the names of this sort that a control declares the next numbers.
    fn add_control(
        &mut self,
        alloc: Global,
        sort: Sort,
        control: &Name,
        locals: &[Local],
    ) -> Result<(), AllocError>
        ensures { IfOk result (λ _. Adds self.old self.new
            (locals_names (sort_of sort) control.now (map local_of locals.now))) }
    {
        let group = group_of(alloc, sort, control, locals, self.plain.next)?;
        let next = group.next;
        self.controls.push(group)?;
        self.plain.next = next;
        Ok(())
    }

    /// The number of a name.
    pub(crate) fn number(&self, name: &str) -> Option<u32>
        ensures { (all : List (List ℕ)) → IsNumbering self.now all → result ≡ number_in all name.now }
    {
        let mut found = self.plain.number(name);
        for group in &self.controls {
            found = lesser(found, group.number(name));
        }
        found
    }
}

/// The name of a declaration of a control, where it is of this sort.
fn local_name(sort: Sort, local: &Local) -> Option<&Name>
    ensures { as_list result ≡ local_name (sort_of sort) (local_of local.now) }
{
    match local {
        Local::Tab(_, table) => match sort {
            Sort::Tables => Some(&table.name),
            Sort::Registers | Sort::Actions => None,
        },
        Local::Reg(_, register) => match sort {
            Sort::Registers => Some(&register.name),
            Sort::Tables | Sort::Actions => None,
        },
        Local::Act(_, action) => match sort {
            Sort::Actions => Some(&action.name),
            Sort::Tables | Sort::Registers => None,
        },
        Local::Const(_, _, _, _) | Local::Var(_, _, _, _) => None,
    }
}

/// What the names in a control begin with.
fn front(alloc: Global, control: &Name) -> Result<String, AllocError>
    ensures { IfOk result (λ text. string_bytes text ≡ dotted control.now []) }
{
    let mut text = String::from_str(alloc, control.as_str())?;
    text.push_str(".")?;
    Ok(text)
}

/// Adds the name of a declaration of a control, where it is of this sort.
fn add_local(alloc: Global, group: &mut Group, sort: Sort, local: &Local) -> Result<(), AllocError>
    ensures { IfOk result (λ _. Gains group.old group.new
        (local_name (sort_of sort) (local_of local.now))) }
{
    match local_name(sort, local) {
        Some(name) => {
            group.add(String::from_str(alloc, name.as_str())?)?;
            Ok(())
        }
        None => Ok(()),
    }
}

/// The names of this sort that a control declares, numbered from `next` on.
fn group_of(
    alloc: Global,
    sort: Sort,
    control: &Name,
    locals: &[Local],
    next: u32,
) -> Result<Group, AllocError>
    ensures { IfOk result (λ g. IsGroup g control.now next
        (locals_names (sort_of sort) control.now (map local_of locals.now))) }
{
    let mut group = Group::new(alloc, front(alloc, control)?, next);
    for local in locals {
        add_local(alloc, &mut group, sort, local)?;
    }
    Ok(group)
}

/// Adds the names of this sort that a declaration at top level declares.
fn add_top(
    alloc: Global,
    numbering: &mut Numbering,
    sort: Sort,
    top: &Top,
) -> Result<(), AllocError>
    ensures { IfOk result (λ _. Adds numbering.old numbering.new
        (top_names (sort_of sort) (top_of top.now))) }
{
    match top {
        Top::Ctl(_, control) => {
            numbering.add_control(alloc, sort, &control.name, &control.locals)
        }
        Top::Reg(_, register) => match sort {
            Sort::Registers => { numbering.add(String::from_str(alloc, register.name.as_str())?) }
            Sort::Tables | Sort::Actions => Ok(()),
        },
        Top::Const(_, _, _, _) | Top::Typedef(_, _, _) | Top::Header(_, _, _) => Ok(()),
        Top::Struct(_, _, _) | Top::Pars(_, _) => Ok(()),
    }
}

/// The names of this sort at top level and in controls.
fn numbered(alloc: Global, sort: Sort, tops: &[Top]) -> Result<Numbering, AllocError>
    ensures { IfOk result (λ n. IsNumbering n (tops_names (sort_of sort) (map top_of tops.now))) }
{
    let mut numbering = Numbering::new(alloc);
    for top in tops {
        add_top(alloc, &mut numbering, sort, top)?;
    }
    Ok(numbering)
}

/// The names of a program of this sort, by their numbers.
pub(crate) fn numbering_of(
    alloc: Global,
    sort: Sort,
    program: &Program,
) -> Result<Numbering, AllocError>
    ensures { IfOk result (λ n. IsNumbering n (names (sort_of sort) (program_of program.now))) }
{
    let mut numbering = numbered(alloc, sort, &program.tops)?;
    match sort {
        Sort::Actions => numbering.add(String::from_str(alloc, "NoAction")?)?,
        Sort::Tables | Sort::Registers => {}
    }
    Ok(numbering)
}
