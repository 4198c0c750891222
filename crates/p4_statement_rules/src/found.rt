//! The first broken rule so far.

use crate::rule::ProgramRule;
use std::alloc::Global;

/// The first broken rule so far, with its place.
pub struct Found {
    pub first: Option<(u32, ProgramRule)>,
    alloc: Global,
}

impl Drop for Found {
    fn drop(self) {
        let Found {
            first: _first,
            alloc: _alloc,
        } = self;
    }
}

impl Found {
    ghost use Rattle.std.specs.Prelude.{◌≡◌};
    ghost use Rattle.rule_tests.specs.Tests.{test};
    ghost use Rattle.p4_statement_rules.specs.Ranks.{first_from, comes_first};

    /// No rule is broken so far.
    pub fn new(alloc: Global) -> Found
        ensures { result.first ≡ None }
    {
        Found { first: None, alloc }
    }

    /// Where memory is taken from.
    pub fn alloc(&self) -> Global {
        self.alloc
    }

    /// Adds a test of a rule at a place.
    pub fn test(&mut self, at: u32, rule: ProgramRule, broken: bool)
        ensures { self.new.first ≡ first_from self.old.first (test at rule broken) }
    {
        if broken && self.comes_first(at, rule) {
            self.first = Some((at, rule));
        }
    }

    /// Whether a broken rule comes before all that were found.
    fn comes_first(&self, at: u32, rule: ProgramRule) -> bool
        ensures { result ≡ comes_first self.now.first (at, rule) }
    {
        match self.first {
            None => true,
            Some((place, first)) => { at < place || (at == place && rule.rank() < first.rank()) }
        }
    }
}
