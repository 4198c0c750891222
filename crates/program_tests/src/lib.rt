//! Tests of calls on programs of P4, of texts that are read: a well-typed program's numbers of tables, registers and actions, words
//! of constants, what is counted, and its copy; what rules that simplify answer and leave, and what becomes of an expression by
//! three of them and by none; values of terms over numbered slots, what statements, actions, calls and applications of tables do
//! there, and what has no place. What is wanted was worked by hand.
#![tactic(auto)]

#[cfg(test)]
mod actions;
#[cfg(test)]
mod alike;
#[cfg(test)]
mod answers;
#[cfg(test)]
mod places;
#[cfg(test)]
mod program;
#[cfg(test)]
mod statements;
#[cfg(test)]
mod steps;
#[cfg(test)]
mod terms;
#[cfg(test)]
mod walks;
