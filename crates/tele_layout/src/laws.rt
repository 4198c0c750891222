//! What holds of the definitions that the contracts of this crate cite. The functions do nothing:
//! each is there for its clauses.

ghost use Rattle.tele_layout.specs.Laws.{BytesFillLayouts, BytesTellStates, LayoutsArePlaced, LayoutsServeProperties};

/// A state has as many bytes as its layout says, and no other state has the same.
pub fn bytes_tell_states()
    ensures length { BytesFillLayouts }
    ensures distinct { BytesTellStates }
{}

/// A state that keeps to a property's declarations fits the property's layout, and its bytes are
/// those of the variables by their names.
pub fn layouts_serve_properties()
    ensures placed { LayoutsArePlaced }
    ensures served { LayoutsServeProperties }
{}
