//! `check`: what is said of a well-typed property.

ghost use Rattle.std.specs.Prelude.{IfOk};
ghost use Rattle.indus_tree.specs.Tree.{Property};
ghost use Rattle.indus_tree.specs.View.{property_of};
ghost use Rattle.property_course.specs.Files.{typed_property};
ghost use Rattle.job_course.specs.Output.{out_of};
ghost use Rattle.commands.specs.Job as jobs;
ghost use Rattle.commands.specs.Output.{IsCheckOutput, Outputs};

use command_steps::Steps;
use indus_types::TypedProperty;
use job_course::{Output, Stop};
use outside::Store;
use property_course::load_property;
use std::alloc::{AllocError, Global};

/// The name of the property's file.
#[derive(Clone, Copy)]
pub struct CheckSteps<'a> {
    pub property: &'a str,
}

impl<'a, B> Steps<B> for CheckSteps<'a> {
    type Read = TypedProperty;

    ghost Found = { Property };

    ghost view = { property_of };

    ghost course = { λ s. typed_property s.property.now };

    ghost is_read = { λ s property. Unit {0} };

    ghost Job = { jobs.Job };

    ghost job_of = { λ s property. jobs.check property };

    ghost outputs = { Outputs };

    /// Reads the file of a property.
    fn read<S: Store>(&self, alloc: Global, store: &mut S) -> Result<TypedProperty, Stop> {
        load_property(alloc, store, self.property)
    }

    /// Says what the property needs.
    fn make(
        &self,
        alloc: Global,
        _with: &mut B,
        property: TypedProperty,
    ) -> Result<Output, AllocError> {
        sums(alloc, &property)
    }
}

/// What a property needs: the bytes of its telemetry, and its weight.
fn sums(alloc: Global, property: &TypedProperty) -> Result<Output, AllocError>
    ensures { IfOk result (λ o. IsCheckOutput (property_of property.now) (out_of o)) }
{
    let bytes = property.tele_bits().div_ceil(8);
    let weight = property.weight();
    let text = format!(in alloc; "ok bytes {bytes} weight {weight}\n")?;
    Ok(Output {
        files: Vec::new(alloc),
        text,
    })
}
