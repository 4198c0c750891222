//! The flat code of a property.

ghost use Rattle.std.specs.Prelude.{◌≤◌, IfErr, IfOk};
ghost use Rattle.indus_tree.specs.View.{property_of};
ghost use Rattle.indus_types.specs.Sums.{property_weight};
ghost use Rattle.lower_lists.specs.FlatProperty.{HasCause, IsFlatOf, greatest_weight};

use crate::blocks::flat_block;
use crate::fault::LowerFault;
use indus_tree::Stmt;
use indus_types::TypedProperty;
use std::alloc::Global;

/// The greatest weight of a property that is made flat.
const GREATEST_WEIGHT: u32 = 16_384;

/// The blocks of a property as flat code.
#[derive(Debug)]
pub struct FlatProperty {
    pub init: Vec<Stmt>,
    pub tele: Vec<Stmt>,
    pub check: Vec<Stmt>,
}

impl Drop for FlatProperty {
    fn drop(self) {
        let FlatProperty {
            init: _init,
            tele: _tele,
            check: _check,
        } = self;
    }
}

/// The flat code of a property, unless its weight is over 16,384.
pub fn flatten(alloc: Global, p: &TypedProperty) -> Result<FlatProperty, LowerFault>
    ensures flat { IfOk result (λ f. IsFlatOf (property_of p.now) f) }
    ensures light { IfOk result (λ _. property_weight (property_of p.now) ≤ greatest_weight) }
    ensures cause { IfErr result (HasCause (property_of p.now)) }
{
    let weight = p.weight();
    if weight > GREATEST_WEIGHT {
        return Err(LowerFault::TooLarge { weight });
    }
    let property = p.property();
    Ok(FlatProperty {
        init: flat_block(alloc, p, &[], &property.init)?,
        tele: flat_block(alloc, p, &[], &property.tele)?,
        check: flat_block(alloc, p, &[], &property.check)?,
    })
}
