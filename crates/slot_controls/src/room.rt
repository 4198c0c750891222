//! How many keys the applications in steps have at the most, and how many digests steps give at the most.

ghost use Rattle.std.specs.Prelude.{◌≡◌, ℕ, ◌+◌, ◌≤◌, max, length, IfOk};
ghost use Rattle.slot_controls.specs.Steps.{application_of, most_told, most_told_all, most_told_one, step_of, steps_of, HasFewKeys, HaveFewKeys};

use crate::application::Application;
use crate::step::Step;
use std::alloc::AllocError;

/// The greater of two numbers.
fn greater(a: usize, b: usize) -> usize
    ensures left { a ≤ result }
    ensures right { b ≤ result }
    ensures least { (n : ℕ) → a ≤ n → b ≤ n → result ≤ n }
{
    if a < b { b } else { a }
}

/// How many keys an application has.
fn key_count(a: &Application) -> usize
    ensures { result ≡ length (application_of a.now).keys }
{
    a.keys.len()
}

/// The most keys that an application in a step has.
#[cycle(keys)]
fn step_keys(step: &Step) -> usize
    ensures enough { HasFewKeys result (step_of step.now) }
    ensures least { (n : ℕ) → HasFewKeys n (step_of step.now) → result ≤ n }
{
    match step {
        Step::Plain(_) => 0,
        Step::Group(list) => most_keys(list),
        Step::If(_, a, b) => greater(step_keys(a), step_keys(b)),
        Step::Call(_, _, body) => most_keys(body),
        Step::Apply(bodies, x, _, a, b) => {
            let branches = greater(step_keys(a), step_keys(b));
            greater(greater(key_count(x), most_keys(bodies)), branches)
        }
        Step::Make(_, _, _) | Step::Read(_, _, _) | Step::Write(_, _, _) => 0,
        Step::Tell(_, _) | Step::Verify(_, _, _) | Step::Update(_, _) => 0,
    }
}

/// The most keys that an application in some steps has: so much room `run_steps` needs in its buffer.
#[cycle(keys)]
pub fn most_keys(list: &[Step]) -> usize
    ensures enough { HaveFewKeys result (steps_of list.now) }
    ensures least { (n : ℕ) → HaveFewKeys n (steps_of list.now) → result ≤ n }
{
    let mut most = 0;
    for step in list {
        most = greater(most, step_keys(step));
    }
    most
}

/// Two numbers together. What 64 bits do not count no memory holds: that is told as want of memory.
fn together(a: usize, b: usize) -> Result<usize, AllocError>
    ensures { IfOk result (λ n. n ≡ a + b) }
{
    match a.checked_add(b) {
        Some(n) => Ok(n),
        None => Err(AllocError),
    }
}

/// The greater of two numbers of digests.
fn the_greater(a: usize, b: usize) -> usize
    ensures { result ≡ max a b }
{
    if a < b { b } else { a }
}

/// The most digests that a step gives.
#[cycle(digests)]
fn step_digests(step: &Step) -> Result<usize, AllocError>
    ensures { IfOk result (λ n. n ≡ most_told (step_of step.now)) }
{
    match step {
        Step::Plain(_) | Step::Make(_, _, _) => Ok(0),
        Step::Read(_, _, _) | Step::Write(_, _, _) => Ok(0),
        Step::Verify(_, _, _) | Step::Update(_, _) => Ok(0),
        Step::Group(list) => most_digests(list),
        Step::If(_, a, b) => {
            let first = step_digests(a)?;
            let second = step_digests(b)?;
            Ok(the_greater(first, second))
        }
        Step::Call(_, _, body) => most_digests(body),
        Step::Apply(bodies, _, _, a, b) => {
            let body = most_of_one(bodies)?;
            let first = step_digests(a)?;
            let second = step_digests(b)?;
            together(body, the_greater(first, second))
        }
        Step::Tell(_, _) => Ok(1),
    }
}

/// The most digests that some steps give: for so many there is to be room. What 64 bits do not count no
/// memory holds: that is told as want of memory.
#[cycle(digests)]
pub fn most_digests(list: &[Step]) -> Result<usize, AllocError>
    ensures { IfOk result (λ n. n ≡ most_told_all (steps_of list.now)) }
{
    let mut most = 0;
    for step in list {
        most = together(most, step_digests(step)?)?;
    }
    Ok(most)
}

/// The most digests that one of some steps gives.
#[cycle(digests)]
fn most_of_one(list: &[Step]) -> Result<usize, AllocError>
    ensures { IfOk result (λ n. n ≡ most_told_one (steps_of list.now)) }
{
    let mut most = 0;
    for step in list {
        most = the_greater(most, step_digests(step)?);
    }
    Ok(most)
}
