//! Faults of a value's form, as faults of a file of tables.

ghost use Rattle.std.specs.Prelude.{◌≡◌};
ghost use Rattle.json_parts.specs.Answers.{with_fault};
ghost use Rattle.json_values.specs.Words.{fault_of};

use json_parts::ShapeFault;
use table_faults::TableFault;

fn table_fault(fault: ShapeFault) -> TableFault
    ensures { result ≡ fault_of fault }
{
    match fault {
        ShapeFault::NoMemory => TableFault::NoMemory,
        ShapeFault::Shape { path } => TableFault::Shape { path },
    }
}

/// What was read, with a fault of its form as one of a file of tables.
pub fn in_table<X: Drop>(read: Result<X, ShapeFault>) -> Result<X, TableFault>
    ensures { result ≡ with_fault fault_of read }
{
    match read {
        Ok(found) => Ok(found),
        Err(fault) => Err(table_fault(fault)),
    }
}
