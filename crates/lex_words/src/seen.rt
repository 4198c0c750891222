//! What stands at a place of a list of tokens.

ghost use Rattle.std.specs.Prelude.{◌≡◌, ◌≤◌, ◌<◌, length, slice_get, Some, OnSome, true};
ghost use Rattle.std.specs.Option.{option_copied};
ghost use Rattle.lex_text.specs.Places.{AreIn, bytes_of};
ghost use Rattle.lex_words.specs.Keys.{reserved_key};
ghost use Rattle.lex_words.specs.Seen.{lexeme_of, lexemes_of, name_or, key_in, name_in, number_of, is_quoted, is_include, at_key, at_name};

use crate::key::{Key, mark, reserved};
use lex_text::{Literal, Token, TokenKind, Words};

/// The bytes of a token.
fn token_bytes<'a>(text: &'a [u8], token: &Token) -> &'a [u8]
    requires rising { token.now.start ≤ token.now.end }
    requires inside { token.now.end ≤ length text.now }
    ensures { result.now ≡ bytes_of text.now token.now }
{
    &text[token.start as usize..token.end as usize]
}

/// The reserved word or mark at a place.
pub fn key_at(words: Words, text: &[u8], list: &[Token], at: usize) -> Option<Key>
    requires { AreIn text.now list.now }
    ensures value { result ≡ key_in (slice_get (lexemes_of words text.now list.now) at) }
    ensures inside { OnSome result (at < length list.now) }
{
    let token = list.get(at)?;
    match token.kind {
        TokenKind::Name => reserved(words, token_bytes(text, token)),
        TokenKind::Mark => mark(token_bytes(text, token)),
        TokenKind::Number(_) | TokenKind::Text | TokenKind::Include => None,
    }
}

/// Whether this reserved word or mark stands at a place.
pub fn is_key(words: Words, text: &[u8], list: &[Token], at: usize, key: Key) -> bool
    requires { AreIn text.now list.now }
    ensures value { result ≡ at_key key (slice_get (lexemes_of words text.now list.now) at) }
    ensures inside { result ≡ true → at < length list.now }
{
    match key_at(words, text, list, at) {
        None => false,
        Some(found) => found == key,
    }
}

/// The bytes, if they are not reserved.
fn unreserved(words: Words, bytes: &[u8]) -> Option<&[u8]>
    ensures { option_copied result ≡ name_in (Some (name_or bytes.now (reserved_key words bytes.now))) }
{
    match reserved(words, bytes) {
        Some(_) => None,
        None => Some(bytes),
    }
}

/// The name that a token is, if it is not reserved.
fn name_of<'a>(words: Words, text: &'a [u8], token: &Token) -> Option<&'a [u8]>
    requires rising { token.now.start ≤ token.now.end }
    requires inside { token.now.end ≤ length text.now }
    ensures { option_copied result ≡ name_in (Some (lexeme_of words text.now token.now)) }
{
    match token.kind {
        TokenKind::Name => unreserved(words, token_bytes(text, token)),
        TokenKind::Number(_) => None,
        TokenKind::Text => None,
        TokenKind::Mark => None,
        TokenKind::Include => None,
    }
}

/// The name at a place, if it is not reserved.
pub fn name_at<'a>(words: Words, text: &'a [u8], list: &[Token], at: usize) -> Option<&'a [u8]>
    requires { AreIn text.now list.now }
    ensures { option_copied result ≡ name_in (slice_get (lexemes_of words text.now list.now) at) }
{
    match list.get(at) {
        None => None,
        Some(token) => name_of(words, text, token),
    }
}

/// Whether this name stands at a place, and is not reserved.
pub fn is_named(words: Words, text: &[u8], list: &[Token], at: usize, name: &[u8]) -> bool
    requires { AreIn text.now list.now }
    ensures { result ≡ at_name name.now (slice_get (lexemes_of words text.now list.now) at) }
{
    match name_at(words, text, list, at) {
        None => false,
        Some(bytes) => bytes == name,
    }
}

/// The number at a place.
pub fn number_at(list: &[Token], at: usize) -> Option<Literal>
    ensures { result ≡ number_of (slice_get list.now at) }
{
    match list.get(at)?.kind {
        TokenKind::Number(literal) => Some(literal),
        TokenKind::Name | TokenKind::Text | TokenKind::Mark | TokenKind::Include => None,
    }
}

/// Whether a text in quotes stands at a place.
pub fn is_text(list: &[Token], at: usize) -> bool
    ensures { result ≡ is_quoted (slice_get list.now at) }
{
    match list.get(at) {
        None => false,
        Some(token) => match token.kind {
            TokenKind::Text => true,
            TokenKind::Name | TokenKind::Number(_) | TokenKind::Mark | TokenKind::Include => false,
        },
    }
}

/// Whether an inclusion stands at a place.
pub fn is_inclusion(list: &[Token], at: usize) -> bool
    ensures { result ≡ is_include (slice_get list.now at) }
{
    match list.get(at) {
        None => false,
        Some(token) => match token.kind {
            TokenKind::Include => true,
            TokenKind::Name | TokenKind::Number(_) | TokenKind::Mark | TokenKind::Text => false,
        },
    }
}
