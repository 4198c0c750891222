//! Rules of types, as tests of a tree from left to right.
//!
//! A language gives the tests of each form of its trees: a place, a rule, and whether the rule is
//! broken there. The layers above get the words for "this rule is broken at that place" and "no rule
//! is broken", the first broken rule, and the laws between them: the first is broken and no other
//! comes before it, and where there is none no rule is broken. Nothing is said here of any language.
#![tactic(auto)]
