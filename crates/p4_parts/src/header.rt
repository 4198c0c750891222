//! Headers and their fields.

ghost use Rattle.std.specs.Prelude.{◌≤◌};

use lex_text::Name;

/// A field: its name and its bits, 1 to 128 of them.
#[derive(Drop)]
pub struct Field {
    pub name: Name,
    pub width: u8,
    ghost wide: { 1 ≤ width },
    ghost narrow: { width ≤ 128 },
}

/// A header: its path and its fields in order.
pub struct Header {
    pub path: Vec<Name>,
    pub fields: Vec<Field>,
}

impl Drop for Header {
    fn drop(self) {
        let Header {
            path: _path,
            fields: _fields,
        } = self;
    }
}
