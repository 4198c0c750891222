//! Words and marks that this subset leaves out.

ghost use Rattle.std.specs.Prelude.{◌≡◌, slice_get};
ghost use Rattle.lex_text.specs.Places.{AreIn};
ghost use Rattle.lex_text.specs.declared.token.Words.TheVariants.{P4};
ghost use Rattle.lex_words.specs.Seen.{lexemes_of};
ghost use Rattle.p4_reader.specs.LeftOut.{is_left_out, is_left_out_key, is_left_out_word, is_one_of, left_out_calls, left_out_copies, left_out_declarations};

use lex_text::{Token, Words};
use lex_words::{Key, is_text, key_at, name_at};

/// Whether a name is that of a kind of types or declarations that is left out.
fn is_declaration(name: &[u8]) -> bool
    ensures { result ≡ is_one_of left_out_declarations name.now }
{
    if name == b"header_union".as_slice() {
        true
    } else if name == b"enum".as_slice() {
        true
    } else if name == b"extern".as_slice() {
        true
    } else if name == b"package".as_slice() {
        true
    } else if name == b"switch".as_slice() {
        true
    } else if name == b"int".as_slice() {
        true
    } else if name == b"varbit".as_slice() {
        true
    } else if name == b"match_kind".as_slice() {
        true
    } else if name == b"value_set".as_slice() {
        true
    } else if name == b"tuple".as_slice() {
        true
    } else if name == b"abstract".as_slice() {
        true
    } else {
        name == b"action_selector".as_slice()
    }
}

/// Whether a name is that of a call, left out, that copies packets or begins them anew.
fn is_copy(name: &[u8]) -> bool
    ensures { result ≡ is_one_of left_out_copies name.now }
{
    if name == b"lookahead".as_slice() {
        true
    } else if name == b"advance".as_slice() {
        true
    } else if name == b"verify".as_slice() {
        true
    } else if name == b"clone".as_slice() {
        true
    } else if name == b"clone3".as_slice() {
        true
    } else if name == b"clone_preserving_field_list".as_slice() {
        true
    } else if name == b"resubmit".as_slice() {
        true
    } else if name == b"resubmit_preserving_field_list".as_slice() {
        true
    } else if name == b"recirculate".as_slice() {
        true
    } else {
        name == b"recirculate_preserving_field_list".as_slice()
    }
}

/// Whether a name is that of a counter, another call or a table's property that is left out.
fn is_call(name: &[u8]) -> bool
    ensures { result ≡ is_one_of left_out_calls name.now }
{
    if name == b"counter".as_slice() {
        true
    } else if name == b"direct_counter".as_slice() {
        true
    } else if name == b"meter".as_slice() {
        true
    } else if name == b"direct_meter".as_slice() {
        true
    } else if name == b"hash".as_slice() {
        true
    } else if name == b"random".as_slice() {
        true
    } else if name == b"truncate".as_slice() {
        true
    } else if name == b"log_msg".as_slice() {
        true
    } else if name == b"entries".as_slice() {
        true
    } else if name == b"implementation".as_slice() {
        true
    } else if name == b"range".as_slice() {
        true
    } else {
        name == b"optional".as_slice()
    }
}

/// Whether a name is left out.
fn is_word(name: &[u8]) -> bool
    ensures { result ≡ is_left_out_word name.now }
{
    is_declaration(name) || is_copy(name) || is_call(name)
}

/// Whether a reserved word or a mark is left out.
fn is_mark(key: Key) -> bool
    ensures { result ≡ is_left_out_key key }
{
    match key {
        Key::Error
        | Key::AddCapped
        | Key::SubCapped
        | Key::DotDot
        | Key::Slash
        | Key::Percent
        | Key::At
        | Key::Hash => true,
        _ => false,
    }
}

/// Whether a word or a mark that is left out, or a text in quotes, stands at a place.
pub fn is_left_out(text: &[u8], list: &[Token], at: usize) -> bool
    requires { AreIn text.now list.now }
    ensures { result ≡ is_left_out (slice_get (lexemes_of P4 text.now list.now) at) }
{
    match key_at(Words::P4, text, list, at) {
        Some(key) => is_mark(key),
        None => match name_at(Words::P4, text, list, at) {
            Some(name) => is_word(name),
            None => is_text(list, at),
        },
    }
}
