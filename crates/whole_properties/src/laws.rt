//! Laws of the monitors of whole properties.

ghost use Rattle.monitor_laws.specs.MonitorLaws.{MonitorLaws};
ghost use Rattle.whole_properties.specs.Asked.{FitsView, IsGiven};
ghost use Rattle.whole_properties.specs.Bytes.{TelemetryIsLinked};
ghost use Rattle.whole_properties.specs.Few.{NumbersAreFew, TablesAreFew};
ghost use Rattle.whole_properties.specs.Whole.{Given, IsFitContents, IsFitTele, IsVariable, Keeps, lower_monitor};

/// What a property lowers to keeps the laws of a monitor, where header variables have the widths with
/// which they are declared.
pub fn whole_properties_keep_the_laws()
    ensures { (g : Given) → IsGiven g →
        MonitorLaws (lower_monitor g) (IsFitTele g) (Keeps g) (FitsView g) (IsVariable g) (IsFitContents g) }
{}

/// The bytes in front of a frame are the property's telemetry.
pub fn telemetry_is_linked()
    ensures { TelemetryIsLinked }
{}

/// A control variable has no more tables than the property's text looks it up.
pub fn tables_are_few()
    ensures { TablesAreFew }
{}

/// What is read by statements of its own has no more numbers than the property weighs.
pub fn numbers_are_few()
    ensures { NumbersAreFew }
{}
