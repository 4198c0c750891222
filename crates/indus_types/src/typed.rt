//! A property that is well typed.

ghost use Rattle.std.specs.Prelude.{◌≡◌, IfErr, IfOk};
ghost use Rattle.indus_tree.specs.Hops.{variable_number};
ghost use Rattle.indus_tree.specs.View.{property_of};
ghost use Rattle.indus_rules.specs.Rules.{IsWellTyped};
ghost use Rattle.indus_types.specs.Faults.{HasCause};
ghost use Rattle.indus_types.specs.Sums.{cut, cut_wide, property_bits, property_weight, nth_lookups, IsControl};

use crate::fault::TypeFault;
use crate::names::name_table;
use crate::{bits, reads, weight};
use indexmap::IndexSet;
use indus_rules::first_fault;
use indus_tree::Property;
use std::alloc::{AllocError, Global};
use std::marker::Model;

/// A property with the declared names, in their order.
#[derive(Drop)]
struct Tabled {
    property: Property,
    names: IndexSet<String>,
}

/// A property that breaks no rule. Contracts see it as the property.
pub struct TypedProperty {
    tabled: Box<Tabled>,
}

impl Drop for TypedProperty {
    fn drop(self) {
        let TypedProperty { tabled: _tabled } = self;
    }
}

impl Model for TypedProperty {
    ghost use Rattle.std.specs.Coded.{codes};
    ghost use Rattle.indus_tree.specs.declared.tree.Property.{Property};
    ghost use Rattle.indus_tree.specs.contracts.tree.Expr as expr;
    ghost use Rattle.indus_tree.specs.contracts.tree.Stmt as stmt;
    ghost use Rattle.indus_tree.specs.View.{property_of};
    ghost use Rattle.indus_types.specs.NameTable.{IsTabled};

    ghost Value = { Property };

    ghost coded = { Prim.hlevel (codes, expr.the_row.coded, stmt.the_row.coded) };

    ghost view = { λ t. t.tabled.value.property };

    ghost invariant = { λ t. IsTabled (property_of t.tabled.value.property) t.tabled.value.names.keys };
}

/// The property itself, exactly where it breaks no rule.
pub fn check_property(alloc: Global, p: Property) -> Result<TypedProperty, TypeFault>
    ensures ok { IfOk result (λ t. property_of t ≡ property_of p) }
    ensures typed { IfOk result (λ _. IsWellTyped (property_of p)) }
    ensures cause { IfErr result (HasCause (property_of p)) }
{
    match first_fault(alloc, &p)? {
        Some((place, rule)) => Err(TypeFault::Type_ { place, rule }),
        None => Ok(with_names(alloc, p)?),
    }
}

/// A property that breaks no rule, with the table of its names.
fn with_names(alloc: Global, property: Property) -> Result<TypedProperty, AllocError>
    requires { IsWellTyped (property_of property) }
    ensures { IfOk result (λ t. property_of t ≡ property_of property) }
{
    let names = name_table(alloc, &property.decls)?;
    Ok(TypedProperty {
        tabled: Box::new(alloc, Tabled { property, names })?,
    })
}

impl TypedProperty {
    /// The property.
    pub fn property(&self) -> &Property
        ensures same { result.now ≡ self.now }
        ensures typed { IsWellTyped (property_of self.now) }
    {
        &self.tabled.property
    }

    /// An equal property with the same places.
    pub fn copy(&self, alloc: Global) -> Result<TypedProperty, AllocError>
        ensures { IfOk result (λ t. property_of t ≡ property_of self.now) }
    {
        let property = self.tabled.property.copy(alloc)?;
        with_names(alloc, property)
    }

    /// The place of a name among the declarations.
    pub fn number(&self, name: &str) -> Option<usize>
        ensures { result ≡ variable_number (property_of self.now).decls name.now }
    {
        self.tabled.names.get_index_of(name)
    }

    /// The bits of the telemetry, cut at the greatest number.
    pub fn tele_bits(&self) -> u64
        ensures { result ≡ cut_wide (property_bits (property_of self.now)) }
    {
        bits::property_bits(&self.tabled.property)
    }

    /// The weight, cut at the greatest number.
    pub fn weight(&self) -> u32
        ensures { result ≡ cut (property_weight (property_of self.now)) }
    {
        weight::property_weight(&self.tabled.property, &self.tabled.names)
    }

    /// How often the control variable at this place among the declarations is read, cut at the
    /// greatest number.
    pub fn lookups(&self, variable: u32) -> u32
        requires { IsControl (property_of self.now) variable }
        ensures { result ≡ cut (nth_lookups (property_of self.now) variable) }
    {
        reads::lookups(&self.tabled.property, &self.tabled.names, variable)
    }
}
