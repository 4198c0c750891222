//! What a command answers.

ghost use Rattle.job_course.specs.Ending.{AnswersAll, AnswersCommand};
ghost use Rattle.command_steps.specs.Whole.{whole};

use crate::plan::plan;
use crate::steps::Steps;
use job_course::{Status, deliver, refuse};
use outside::{Sink, Store};
use std::alloc::Global;

/// Does what a command says, over a store and a sink.
pub fn answer<S: Store, K: Sink, W, T: Steps<W>>(
    alloc: Global,
    store: &mut S,
    out: &mut K,
    with: &mut W,
    steps: &T,
) -> Status
    // Each answer has its cause, and says what stands after it.
    ensures answer { AnswersCommand T.outputs (whole (T.course steps.now) (T.job_of steps.now)) (S.state store.old) (S.state store.new) (K.state out.old) (K.state out.new) result }
    // A job is done, and a first refusal answered, unless a count rose or memory was wanting.
    ensures complete { AnswersAll (whole (T.course steps.now) (T.job_of steps.now)) (S.state store.old) (S.state store.new) (K.state out.old) (K.state out.new) result }
{
    match plan(alloc, store, with, steps) {
        Ok(output) => deliver(alloc, store, out, &output),
        Err(stop) => refuse(out, &stop),
    }
}
