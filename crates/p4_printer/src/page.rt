//! A text that lexemes are put at the end of.

ghost use Rattle.std.specs.Prelude.{◌≡◌, ◌*◌, min, ◌++◌, ◌∷◌, [], replicate, IfOk, string_bytes};
ghost use Rattle.p4_printer.specs.declared.place.Gap.TheVariants as gap;
ghost use Rattle.p4_printer.specs.Layout.{Sheet, blank_sheet, put_bytes, bytes_of_gap};

use crate::form::Form;
use crate::place::{Gap, Place, behind, gap_before, resolved};
use std::alloc::{AllocError, Global};
use std::marker::Model;

/// The levels that are indented: twelve at most.
fn indented(level: u32) -> u32
    ensures { result ≡ min level 12 }
{
    if level < 12 { level } else { 12 }
}

/// Puts four blanks for each level.
fn put_blanks(text: &mut String, levels: u32) -> Result<(), AllocError>
    ensures { IfOk result (λ _. string_bytes text.new ≡ string_bytes text.old ++ replicate (4 * levels) 32) }
{
    for _ in 0..levels {
        text.push_str("    ")?;
    }
    Ok(())
}

/// A text that is not at its end. Contracts see its bytes and the place where it ends.
#[derive(Drop)]
pub struct Page {
    text: String,
    place: Place,
}

impl Model for Page {
    ghost use Rattle.std.specs.Prelude.{string_bytes};
    ghost use Rattle.p4_printer.specs.Layout.{Sheet};

    ghost Value = { Sheet };

    ghost view = { λ p. record { text = string_bytes p.text; place = p.place } };
}

impl Page {
    /// An empty text.
    pub fn new(alloc: Global) -> Page
        ensures { result ≡ blank_sheet }
    {
        Page {
            text: String::new(alloc),
            place: Place {
                depth: 0,
                rounds: 0,
                squares: 0,
                angles: 0,
                last: Form::Start,
            },
        }
    }

    /// A new line, this many levels in.
    fn put_line(&mut self, level: u32) -> Result<(), AllocError>
        ensures { IfOk result (λ _. self.new ≡ record self.old { text = self.old.text ++ bytes_of_gap (gap.Line level) }) }
    {
        self.text.push_str("\n")?;
        put_blanks(&mut self.text, indented(level))?;
        Ok(())
    }

    fn put_gap(&mut self, gap: Gap) -> Result<(), AllocError>
        ensures { IfOk result (λ _. self.new ≡ record self.old { text = self.old.text ++ bytes_of_gap gap }) }
    {
        match gap {
            Gap::Nothing => {}
            Gap::Blank => self.text.push_str(" ")?,
            Gap::Line(level) => self.put_line(level)?,
            Gap::Empty => self.text.push_str("\n\n")?,
        }
        Ok(())
    }

    /// Puts a lexeme of this form.
    pub fn put(&mut self, form: Form, word: &str) -> Result<(), AllocError>
        ensures { IfOk result (λ _. self.new ≡ put_bytes self.old form word.now) }
    {
        let here = resolved(self.place, form);
        self.put_gap(gap_before(self.place, here))?;
        self.text.push_str(word)?;
        self.place = behind(self.place, here);
        Ok(())
    }

    /// The whole text, with a line feed at its end.
    pub fn end(self) -> Result<String, AllocError>
        ensures { IfOk result (λ text. string_bytes text ≡ self.text ++ 10 ∷ []) }
    {
        let mut text = self.text;
        text.push_str("\n")?;
        Ok(text)
    }
}
