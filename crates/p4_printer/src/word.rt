//! Lexemes at the end of a text.

ghost use Rattle.std.specs.Prelude.{◌≡◌, ◌++◌, ◌∷◌, [], IfOk};
ghost use Rattle.lex_words.specs.Seen.{name, number, key};
ghost use Rattle.p4_printer.specs.Layout.{written, bare};

use crate::form::{Form, form_of_key};
use crate::key::spelling;
use crate::page::Page;
use lex_text::{Literal, Name};
use lex_words::Key;
use std::alloc::{AllocError, Global};

/// Puts a reserved word or a mark.
#[tactic(auto, using(crate::proofs::Texts::texts), unfolding(crate::specs::Layout::written))]
pub fn put(out: &mut Page, mark: Key) -> Result<(), AllocError>
    ensures { IfOk result (λ _. out.new ≡ written out.old (key mark ∷ [])) }
{
    out.put(form_of_key(mark), spelling(mark))?;
    Ok(())
}

/// Puts a name that the grammar gives.
#[tactic(auto, using(crate::proofs::Texts::texts), unfolding(crate::specs::Layout::written))]
pub fn put_word(out: &mut Page, word: &str) -> Result<(), AllocError>
    ensures { IfOk result (λ _. out.new ≡ written out.old (name word.now ∷ [])) }
{
    out.put(Form::Word, word)?;
    Ok(())
}

/// Puts a name.
#[tactic(auto, using(crate::proofs::Texts::texts))]
pub fn put_name(out: &mut Page, word: &Name) -> Result<(), AllocError>
    ensures { IfOk result (λ _. out.new ≡ written out.old (name word.now ∷ [])) }
{
    put_word(out, word.as_str())?;
    Ok(())
}

/// Puts a number in decimal.
#[tactic(auto, using(crate::proofs::Texts::texts), unfolding(crate::specs::Layout::written))]
pub fn put_decimal(alloc: Global, out: &mut Page, value: u128) -> Result<(), AllocError>
    ensures { IfOk result (λ _. out.new ≡ written out.old (number (bare value) ∷ [])) }
{
    let text = format!(in alloc; "{value}")?;
    out.put(Form::Word, text.as_str())?;
    Ok(())
}

/// Puts a number, behind its width where one is written.
#[tactic(auto, using(crate::proofs::Texts::texts), unfolding(crate::specs::Layout::written))]
pub fn put_number(alloc: Global, out: &mut Page, n: Literal) -> Result<(), AllocError>
    ensures { IfOk result (λ _. out.new ≡ written out.old (number n ∷ [])) }
{
    let value = n.value;
    let text = if n.width == 0 {
        format!(in alloc; "{value}")?
    } else {
        let width = n.width;
        format!(in alloc; "{width}w{value}")?
    };
    out.put(Form::Word, text.as_str())?;
    Ok(())
}
