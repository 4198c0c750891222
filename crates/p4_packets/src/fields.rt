//! What is in sight at a place of a program, by path.

ghost use Rattle.std.specs.Prelude.{◌≡◌, ◌∷◌, ◌++◌, [], false, IfOk, OnOk, map, filter};
ghost use Rattle.lex_text.specs.Names.{parent};
ghost use Rattle.p4_meaning.specs.Store.{blank, read, set_value, set_valid, zero_of, zeroed, write};
ghost use Rattle.p4_meaning.specs.Pass.{declared, is_declared_path, is_declared_header};
ghost use Rattle.p4_parts.specs.Headers as parts;
ghost use Rattle.p4_parts.specs.PartsIn.{parts_in};
ghost use Rattle.p4_packets.specs.Fields.{store_of, value_in, header_in, put_in, zero_under, at_key};

use bit_values::Bits;
use lex_text::Name;
use p4_parts::{Header, Parts, is_declared_header, is_declared_path};
use p4_values::{Sight, copy_path, field_path, parent, path_of_one, same_path};
use std::alloc::{AllocError, Global};

/// The words of paths, and which headers are valid. The first entry of a path counts.
pub struct Fields {
    valid: Vec<(Vec<Name>, bool)>,
    values: Vec<(Vec<Name>, Bits)>,
}

impl Drop for Fields {
    fn drop(self) {
        let Fields {
            valid: _valid,
            values: _values,
        } = self;
    }
}

/// A number of the same width that is 0.
pub fn zero_of(value: Bits) -> Bits
    ensures { result ≡ zero_of value }
{
    Bits::new(value.width, 0)
}

fn value_of(entries: &[(Vec<Name>, Bits)], path: &[Name]) -> Bits
    ensures { result ≡ value_in entries.now path.now }
{
    for entry in entries {
        if same_path(&entry.0, path) {
            return entry.1;
        }
    }
    Bits::default()
}

fn header_of(entries: &[(Vec<Name>, bool)], path: &[Name]) -> Option<bool>
    ensures { result ≡ header_in entries.now path.now }
{
    for entry in entries {
        if same_path(&entry.0, path) {
            return Some(entry.1);
        }
    }
    None
}

/// Writes the first entry of a path, if there is one.
fn overwrite<X: Copy>(entries: &mut Vec<(Vec<Name>, X)>, path: &[Name], v: X) -> bool
    ensures put { put_in entries.old.items path.now v ≡ record { 0 = result; 1 = entries.new.items } }
    ensures none { result ≡ false → entries.new ≡ entries.old }
{
    for i in 0..entries.len() {
        if same_path(&entries[i].0, path) {
            entries[i].1 = v;
            return true;
        }
    }
    false
}

/// The fields of a header become 0.
fn zero_fields_of(entries: &mut Vec<(Vec<Name>, Bits)>, header: &[Name])
    ensures { entries.new.items ≡ map (zero_under header.now) entries.old.items }
{
    for i in 0..entries.len() {
        if same_path(header, parent(&entries[i].0)) {
            entries[i].1 = zero_of(entries[i].1);
        }
    }
}

/// Only the entries of paths that a program declares.
fn keep_paths(entries: &mut Vec<(Vec<Name>, Bits)>, p: &Parts)
    ensures { entries.new.items ≡ filter (at_key (is_declared_path (parts_in p.now))) entries.old.items }
{
    entries.retain(|entry| is_declared_path(p, &entry.0));
}

/// Only the entries of headers that a program declares.
fn keep_headers(entries: &mut Vec<(Vec<Name>, bool)>, list: &[Header])
    ensures { entries.new.items ≡ filter (at_key (is_declared_header (map parts.header_in list.now))) entries.old.items }
{
    entries.retain(|entry| is_declared_header(list, &entry.0));
}

impl Sight for Fields {
    ghost store = { store_of };

    fn read(&self, path: &[Name]) -> Bits {
        let value = value_of(&self.values, path);
        match header_of(&self.valid, parent(path)) {
            Some(false) => zero_of(value),
            _ => value,
        }
    }

    fn header(&self, path: &[Name]) -> Option<bool> {
        header_of(&self.valid, path)
    }
}

impl Fields {
    /// No header, and no path that was set.
    pub fn new(alloc: Global) -> Fields
        ensures { store_of result ≡ blank }
    {
        Fields {
            valid: Vec::new(alloc),
            values: Vec::new(alloc),
        }
    }

    /// The word at a path, whether its header is valid or not.
    pub fn value(&self, path: &[Name]) -> Bits
        ensures { result ≡ (store_of self.now).values path.now }
    {
        value_of(&self.values, path)
    }

    /// Sets the word at a path.
    pub fn set(&mut self, alloc: Global, path: &[Name], v: Bits) -> Result<(), AllocError>
        ensures { OnOk result (store_of self.new ≡ set_value (store_of self.old) path.now v) }
    {
        if !overwrite(&mut self.values, path, v) {
            let key = copy_path(alloc, path)?;
            self.values.push((key, v))?;
        }
        Ok(())
    }

    /// Makes a header valid, or not.
    pub fn set_valid(&mut self, alloc: Global, path: &[Name], b: bool) -> Result<(), AllocError>
        ensures { OnOk result (store_of self.new ≡ set_valid (store_of self.old) path.now b) }
    {
        if !overwrite(&mut self.valid, path, b) {
            let key = copy_path(alloc, path)?;
            self.valid.push((key, b))?;
        }
        Ok(())
    }

    /// The fields of a header become 0.
    pub fn zero(&mut self, header: &[Name])
        ensures { store_of self.new ≡ zeroed (store_of self.old) header.now }
    {
        zero_fields_of(&mut self.values, header);
    }

    /// Forgets what a program does not declare, so the variables of controls.
    pub fn keep_declared(&mut self, p: &Parts)
        ensures { store_of self.new ≡ declared (parts_in p.now) (store_of self.old) }
    {
        keep_paths(&mut self.values, p);
        keep_headers(&mut self.valid, &p.headers);
    }

    /// The word of a header's field, whether the header is valid or not.
    pub fn field_value(
        &self,
        alloc: Global,
        header: &[Name],
        field: &Name,
    ) -> Result<Bits, AllocError>
        ensures { IfOk result (λ v. v ≡ (store_of self.now).values (header.now ++ field.now ∷ [])) }
    {
        let path = field_path(alloc, header, field)?;
        Ok(self.value(&path))
    }

    /// Sets the word of a header's field.
    pub fn set_field(
        &mut self,
        alloc: Global,
        header: &[Name],
        field: &Name,
        v: Bits,
    ) -> Result<(), AllocError>
        ensures { OnOk result (store_of self.new ≡ set_value (store_of self.old) (header.now ++ field.now ∷ []) v) }
    {
        let path = field_path(alloc, header, field)?;
        self.set(alloc, &path, v)
    }

    /// Sets a variable.
    pub fn declare(&mut self, alloc: Global, name: &Name, v: Bits) -> Result<(), AllocError>
        ensures { OnOk result (store_of self.new ≡ set_value (store_of self.old) (name.now ∷ []) v) }
    {
        let path = path_of_one(alloc, name)?;
        self.set(alloc, &path, v)
    }

    /// Sets the word at a path, unless its header is not valid.
    pub fn write(&mut self, alloc: Global, path: &[Name], v: Bits) -> Result<(), AllocError>
        ensures { OnOk result (store_of self.new ≡ write (store_of self.old) path.now v) }
    {
        match header_of(&self.valid, parent(path)) {
            Some(false) => Ok(()),
            _ => self.set(alloc, path, v),
        }
    }
}
