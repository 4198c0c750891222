//! What header variables read.

ghost use Rattle.whole_monitor.specs.Views.{FieldsGiveViews};

/// Where a program declares the fields of a property's header variables with their widths, these fit in
/// each store that keeps to what the program declares.
pub fn fields_give_views()
    ensures { FieldsGiveViews }
{}
