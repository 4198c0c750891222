//! The program of a case, its network, and where its captures enter it.

ghost use Rattle.case_file.specs.Views.{case_view};
ghost use Rattle.job_course.specs.Steps.{Follows};
ghost use Rattle.case_course.specs.Course.{ground_course};
ghost use Rattle.case_course.specs.Views.{ground_of};

use case_file::Case;
use job_course::Stop;
use network_course::{Place, load_network, places_in};
use network_file::Network;
use outside::Store;
use p4_types::TypedProgram;
use program_course::load_program;
use std::alloc::Global;

/// What is read before the entries: the program, the network, and where the captures enter it.
#[derive(Drop)]
pub struct Ground {
    pub program: TypedProgram,
    pub network: Network,
    pub places: Vec<Place>,
}

/// The program, the network, and the switches and ports of the captures.
pub fn load_ground<S: Store>(
    alloc: Global,
    store: &mut S,
    name: &str,
    case: &Case<'_>,
) -> Result<Ground, Stop>
    ensures follows { Follows (ground_course name.now (case_view case.now)) ground_of (S.state store.old) (S.state store.new) result }
{
    let program = load_program(alloc, store, case.program)?;
    let network = load_network(alloc, store, case.network, program.cells())?;
    let places = places_in(alloc, name, &network, &case.captures)?;
    Ok(Ground {
        program,
        network,
        places,
    })
}
