//! Worked rows of the meaning of Indus and of its rules on trees that no text spells, and tests of the trees' copies and of the
//! direct evaluator on properties that are written as texts.
#![tactic(auto)]

#[cfg(test)]
mod copies;
#[cfg(test)]
mod expressions;
#[cfg(test)]
mod hops;
#[cfg(test)]
mod meaning_rows;
#[cfg(test)]
mod path_rows;
#[cfg(test)]
mod rule_rows;
#[cfg(test)]
mod texts;
