//! The two steps of a command.

ghost use Rattle.std.specs.Prelude.{IfOk};
ghost use Rattle.job_course.specs.Course.{Course};
ghost use Rattle.job_course.specs.Output.{Out, out_of};
ghost use Rattle.job_course.specs.Steps.{Follows};

use job_course::{Output, Stop};
use outside::Store;
use std::alloc::{AllocError, Global};

/// How a command reads its job, and what it makes of it. `W` is what it makes it with.
pub trait Steps<W> {
    /// What is read.
    type Read: Drop;

    /// What contracts see of it.
    ghost Found: { Type 0 };

    ghost view: { Self.Read → Found };

    /// How it is read.
    ghost course: { Self → Course Found };

    /// What is known of it, besides.
    ghost is_read: { Self → Self.Read → Type 0 };

    /// The command's job.
    ghost Job: { Type 0 };

    ghost job_of: { Self → Found → Job };

    /// What a job writes.
    ghost outputs: { Job → Out → Type 0 };

    /// Reads the job.
    fn read<S: Store>(&self, alloc: Global, store: &mut S) -> Result<Self::Read, Stop>
        ensures follows { Follows (course self.now) view (S.state store.old) (S.state store.new) result }
        ensures read { IfOk result (is_read self.now) };

    /// Makes what is written of it.
    fn make(&self, alloc: Global, with: &mut W, read: Self::Read) -> Result<Output, AllocError>
        requires { is_read self.now read }
        ensures { IfOk result (λ o. outputs (job_of self.now (view read)) (out_of o)) };
}
