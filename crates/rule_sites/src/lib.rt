//! Rules of types, as tests of places of a tree.
//!
//! A language lays out its trees as sites, from left to right, and gives each rule as a test of a
//! site. The layers above get the words for "this rule is broken at that place" and "no rule is
//! broken", the first broken rule of a tree, and the two laws between them: the first is broken, and
//! where there is none no rule is. Nothing is said here of any language.
#![tactic(auto)]
