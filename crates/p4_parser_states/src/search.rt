//! A search over a graph, which finds its strongly connected components one by one.
//!
//! It goes on from state to state, and keeps those that are open on a stack, on which components
//! stand one behind the other. What leads back to an earlier component joins all from there on; one
//! in which nothing waits to be followed is complete. So each state and each step is gone through
//! once.

ghost use Rattle.std.specs.Prelude.{◌≡◌, ◌≢◌, ℕ, ◌<◌, List, [], ◌∷◌, ◌++◌, false, map, length, slice_index, slice_index_or, IfOk, OnOk, OnSome, IfSome, IfNone};
ghost use Rattle.p4_parser_states.specs.Graphs.{In, IsGraph, Tells, Follows, graph_of};
ghost use Rattle.p4_parser_states.specs.Search.{IsSearch, Keeps, IsNext, IsLast, IsAwaited, Passes, Joins, HasCycle, IsStep, IsDone, mark_in, told, unseen};
ghost use Rattle.p4_parser_states.specs.declared.search.Mark.TheVariants.{New as New_, Done as Done_};

use std::alloc::{AllocError, Global};

/// How far the search has come with a state.
#[derive(Clone, Copy, Debug, PartialEq, Eq)]
pub enum Mark {
    /// It was not seen.
    New,
    /// It stands at this place of the open states.
    Open(usize),
    /// All that it leads to is done, and this is whether it reaches itself.
    Done(bool),
}

impl Mark {
    /// Whether it is known that the state reaches itself.
    fn told(self) -> bool
        ensures { result ≡ told self }
    {
        match self {
            Mark::Done(cyclic) => cyclic,
            _ => false,
        }
    }
}

/// A search that is under way.
#[derive(Drop)]
pub struct Search {
    marks: Vec<Mark>,
    /// The open states, each of which reaches all behind it.
    stack: Vec<usize>,
    /// What is still to be followed: the place of an open state, and a number that follows it.
    waiting: Vec<(usize, usize)>,
    /// The places at which the components begin whose states reach one another.
    starts: Vec<usize>,
}

/// Puts at the end that these wait behind the state at a place.
fn await_all(
    waiting: &mut Vec<(usize, usize)>,
    place: usize,
    onto: &[usize],
) -> Result<(), AllocError>
    ensures { OnOk result (waiting.new.items ≡ waiting.old.items ++ map (λ x. (place, x)) onto.now) }
{
    for x in onto {
        waiting.push((place, *x))?;
    }
    Ok(())
}

/// Marks states as done.
fn finish(marks: &mut Vec<Mark>, states: &[usize], cyclic: bool)
    requires { (k : ℕ) → k < length states.now → slice_index states.now k < length marks.old.items }
    ensures done { (k : ℕ) → k < length states.now
        → slice_index_or marks.new.items (slice_index states.now k) New_ ≡ Done_ cyclic }
    ensures others { (x : ℕ) → ((k : ℕ) → k < length states.now → slice_index states.now k ≢ x)
        → slice_index_or marks.new.items x New_ ≡ slice_index_or marks.old.items x New_ }
    ensures len { length marks.new.items ≡ length marks.old.items }
{
    for x in states {
        marks[*x] = Mark::Done(cyclic);
    }
}

/// For each mark, whether it is known that the state reaches itself.
fn told_all(alloc: Global, marks: &[Mark]) -> Result<Vec<bool>, AllocError>
    ensures { IfOk result (λ answers. answers.items ≡ map told marks.now) }
{
    let mut answers = Vec::new(alloc);
    for mark in marks {
        answers.push(mark.told())?;
    }
    Ok(answers)
}

impl Search {
    /// A search that has seen nothing.
    fn new(alloc: Global, follows: &[Vec<usize>]) -> Result<Search, AllocError>
        ensures search { IfOk result (λ s. IsSearch (graph_of follows.now) s) }
        ensures empty { IfOk result (λ s. s.stack.items ≡ []) }
    {
        Ok(Search {
            marks: vec![in alloc; Mark::New; follows.len()]?,
            stack: Vec::new(alloc),
            waiting: Vec::new(alloc),
            starts: Vec::new(alloc),
        })
    }

    /// Opens a state that was not seen.
    fn enter(&mut self, follows: &[Vec<usize>], state: usize) -> Result<(), AllocError>
        requires search { IsSearch (graph_of follows.now) self.old }
        requires next { IsNext (graph_of follows.now) self.old state }
        ensures search { OnOk result (IsSearch (graph_of follows.now) self.new) }
        ensures keeps { OnOk result (Keeps self.old self.new) }
        ensures seen { OnOk result (mark_in self.new state ≢ New_) }
        ensures fewer { OnOk result (unseen self.new.marks.items < unseen self.old.marks.items) }
    {
        let place = self.stack.len();
        self.marks[state] = Mark::Open(place);
        self.stack.push(state)?;
        self.starts.push(place)?;
        await_all(&mut self.waiting, place, &follows[state])?;
        Ok(())
    }

    /// Where the last component begins.
    fn last_start(&self) -> Option<usize>
        ensures last { IfSome result (λ b. IsLast self.now.starts.items b) }
        ensures none { IfNone result (self.now.starts.items ≡ []) }
    {
        let count = self.starts.len();
        if count == 0 {
            return None;
        }
        Some(self.starts[count - 1])
    }

    /// What waits in the last component.
    fn awaited(&self, start: usize) -> Option<usize>
        requires { (g : List (List ℕ)) × IsSearch g self.now }
        ensures last { IfSome result (λ x. IsAwaited self.now start x) }
        ensures none { IfNone result ((p x : ℕ) → In (p, x) self.now.waiting.items → p < start) }
    {
        let count = self.waiting.len();
        if count == 0 {
            return None;
        }
        let (place, onto) = self.waiting[count - 1];
        if place < start { None } else { Some(onto) }
    }

    /// Passes what waits last.
    fn pass(&mut self)
        ensures { Passes self.old self.new }
    {
        self.waiting.pop();
    }

    /// Joins the last two components, as the last leads to the one before it or further back.
    fn join(&mut self)
        ensures { Joins self.old self.new }
    {
        self.starts.pop();
    }

    /// Whether the last component has several states, or one that follows itself.
    fn has_cycle(&self, follows: &[Vec<usize>], start: usize) -> bool
        requires within { start < length self.now.stack.items }
        requires known { slice_index self.now.stack.items start < length follows.now }
        ensures { HasCycle (graph_of follows.now) self.now start result }
    {
        if self.stack.len() - start > 1 {
            return true;
        }
        let first = self.stack[start];
        follows[first].contains(&first)
    }

    /// Ends the last component: its states are done.
    fn close(&mut self, follows: &[Vec<usize>], start: usize)
        requires search { IsSearch (graph_of follows.now) self.old }
        requires last { IsLast self.old.starts.items start }
        requires none { (p x : ℕ) → In (p, x) self.old.waiting.items → p < start }
        requires within { start < length self.old.stack.items }
        requires known { slice_index self.old.stack.items start < length follows.now }
        ensures { IsStep (graph_of follows.now) self.old self.new }
    {
        let cyclic = self.has_cycle(follows, start);
        finish(&mut self.marks, &self.stack[start..], cyclic);
        self.stack.truncate(start);
        self.starts.pop();
    }

    /// A state that was not seen, or none where the search came on by one step.
    fn advance(&mut self, follows: &[Vec<usize>], start: usize) -> Option<usize>
        requires graph { IsGraph (graph_of follows.now) }
        requires search { IsSearch (graph_of follows.now) self.old }
        requires last { IsLast self.old.starts.items start }
        ensures found { IfSome result (λ x. IsNext (graph_of follows.now) self.new x) }
        ensures same { OnSome result (self.new ≡ self.old) }
        ensures step { IfNone result (IsStep (graph_of follows.now) self.old self.new) }
    {
        match self.awaited(start) {
            Some(onto) => match self.marks[onto] {
                Mark::New => return Some(onto),
                Mark::Open(place) => {
                    if place < start {
                        self.join()
                    } else {
                        self.pass()
                    }
                }
                Mark::Done(_) => self.pass(),
            },
            None => self.close(follows, start),
        }
        None
    }

    /// The next state to open, or none where nothing is open.
    fn next(&mut self, follows: &[Vec<usize>]) -> Option<usize>
        requires graph { IsGraph (graph_of follows.now) }
        requires search { IsSearch (graph_of follows.now) self.old }
        ensures search { IsSearch (graph_of follows.now) self.new }
        ensures keeps { Keeps self.old self.new }
        ensures found { IfSome result (λ x. IsNext (graph_of follows.now) self.new x) }
        ensures none { IfNone result (self.new.stack.items ≡ []) }
    {
        while let Some(start) = self.last_start() {
            if let Some(state) = self.advance(follows, start) {
                return Some(state);
            }
        }
        None
    }

    /// Goes through all that a state reaches.
    fn explore(&mut self, follows: &[Vec<usize>], root: usize) -> Result<(), AllocError>
        requires graph { IsGraph (graph_of follows.now) }
        requires search { IsSearch (graph_of follows.now) self.old }
        requires next { IsNext (graph_of follows.now) self.old root }
        ensures search { OnOk result (IsSearch (graph_of follows.now) self.new) }
        ensures keeps { OnOk result (Keeps self.old self.new) }
        ensures seen { OnOk result (mark_in self.new root ≢ New_) }
        ensures empty { OnOk result (self.new.stack.items ≡ []) }
    {
        self.enter(follows, root)?;
        while let Some(state) = self.next(follows) {
            self.enter(follows, state)?;
        }
        Ok(())
    }

    /// Goes through all that a state reaches, where it was not seen.
    fn visit(&mut self, follows: &[Vec<usize>], root: usize) -> Result<(), AllocError>
        requires graph { IsGraph (graph_of follows.now) }
        requires search { IsSearch (graph_of follows.now) self.old }
        requires empty { self.old.stack.items ≡ [] }
        requires within { root < length follows.now }
        ensures search { OnOk result (IsSearch (graph_of follows.now) self.new) }
        ensures empty { OnOk result (self.new.stack.items ≡ []) }
        ensures keeps { OnOk result (Keeps self.old self.new) }
        ensures done { OnOk result (IsDone (mark_in self.new root)) }
    {
        match self.marks[root] {
            Mark::New => self.explore(follows, root)?,
            _ => {}
        }
        Ok(())
    }
}

/// For each state of a graph, whether one step or more lead from it back to it.
pub fn on_cycles(alloc: Global, follows: &[Vec<usize>]) -> Result<Vec<bool>, AllocError>
    requires { IsGraph (graph_of follows.now) }
    ensures len { IfOk result (λ bs. length bs.items ≡ length follows.now) }
    ensures each { IfOk result (λ bs. (x : ℕ) → x < length follows.now
        → Tells (Follows (graph_of follows.now)) (slice_index_or bs.items x false) x) }
{
    let mut search = Search::new(alloc, follows)?;
    for root in 0..follows.len() {
        search.visit(follows, root)?;
    }
    let answers = told_all(alloc, &search.marks)?;
    Ok(answers)
}
