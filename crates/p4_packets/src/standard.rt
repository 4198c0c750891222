//! The standard metadata.

ghost use Rattle.std.specs.Prelude.{◌≡◌, ◌≤◌, ◌∷◌, [], IfOk, OnOk};
ghost use Rattle.bit_values.specs.Bits.{word, cast};
ghost use Rattle.p4_meaning.specs.Standard.{standard_root};
ghost use Rattle.p4_meaning.specs.Store.{set_value};
ghost use Rattle.p4_packets.specs.Fields.{store_of};

use crate::fields::Fields;
use crate::writes::standard_path;
use bit_values::Bits;
use std::alloc::{AllocError, Global};

/// A number without its width.
pub fn number(value: Bits) -> u128
    ensures { result ≡ value.value }
{
    value.value
}

/// Sets a field of the standard metadata.
pub fn set_standard(alloc: Global, field: &str, v: Bits, s: &mut Fields) -> Result<(), AllocError>
    ensures { OnOk result (store_of s.new ≡ set_value (store_of s.old) (standard_root ∷ field.now ∷ []) v) }
{
    let path = standard_path(alloc, field)?;
    s.set(alloc, &path, v)?;
    Ok(())
}

/// Sets a field of the standard metadata to a number that is cut to its width.
pub fn set_number(
    alloc: Global,
    field: &str,
    width: u8,
    value: u128,
    s: &mut Fields,
) -> Result<(), AllocError>
    requires wide { 1 ≤ width }
    requires narrow { width ≤ 128 }
    ensures { OnOk result (store_of s.new ≡ set_value (store_of s.old) (standard_root ∷ field.now ∷ []) (word width (cast width value))) }
{
    let v = Bits::new(128, value).cast(width);
    set_standard(alloc, field, v, s)?;
    Ok(())
}

/// A field of the standard metadata.
pub fn standard_value(alloc: Global, field: &str, s: &Fields) -> Result<Bits, AllocError>
    ensures { IfOk result (λ v. v ≡ (store_of s.now).values (standard_root ∷ field.now ∷ [])) }
{
    let path = standard_path(alloc, field)?;
    Ok(s.value(&path))
}
