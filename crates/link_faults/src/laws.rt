//! Where refusals come.

ghost use Rattle.link_faults.specs.Causes.{FaultsHaveCauses};
ghost use Rattle.link_faults.specs.NoFault.{NoFaultSays};
ghost use Rattle.link_faults.specs.TableNames.{TablesNameNothingNew};
ghost use Rattle.link_faults.specs.Taken.{NoneIsTaken, NoneTells};

/// Each refusal is given exactly where it has its cause.
pub fn faults_have_causes()
    ensures { FaultsHaveCauses }
{}

/// None is given exactly where all header variables are found, no name is taken, and room and weight
/// suffice.
pub fn no_fault_says()
    ensures { NoFaultSays }
{}

/// A program in which no name is taken has given names.
pub fn none_is_taken()
    ensures { NoneIsTaken }
{}

/// It tells no reports of its own.
pub fn none_tells()
    ensures { NoneTells }
{}

/// In which order the parts of tables stand in a text makes no difference.
pub fn tables_name_nothing_new()
    ensures { TablesNameNothingNew }
{}
