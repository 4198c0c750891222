//! Texts and tokens.

use crate::never::never;
use lex_text::{LexFault, Literal, Name, Token, TokenKind, Words, tokens};
use std::alloc::{AllocError, Global};
use std::mem::forget;

/// Tokens of a text.
pub fn lexed(alloc: Global, text: &[u8], name: &Name, width: u8, value: u128) {
    if never() {
        forget::<Result<Vec<Token>, LexFault>>(tokens(alloc, text, Words::Indus));
        forget::<Result<Vec<Token>, LexFault>>(tokens(alloc, text, Words::P4));
        forget::<Result<Name, AllocError>>(name.copy(alloc));
        let _: &str = name.as_str();
        let literal: Literal = Literal { width, value };
        let start: u32 = 0;
        let end: u32 = 1;
        let kind: TokenKind = TokenKind::Number(literal);
        let _: Token = Token { kind, start, end };
    }
}

/// The kinds of tokens.
pub fn kinds(kind: TokenKind) {
    match kind {
        TokenKind::Name | TokenKind::Text | TokenKind::Mark | TokenKind::Include => {}
        TokenKind::Number(literal) => {
            let _: u8 = literal.width;
            let _: u128 = literal.value;
        }
    }
}

/// What a text is refused for.
pub fn faults(fault: LexFault) {
    match fault {
        LexFault::NoMemory => {}
        LexFault::NotUtf8 { at } => {
            let _: u32 = at;
        }
        LexFault::BadChar { at } => {
            let _: u32 = at;
        }
        LexFault::OpenComment { at } => {
            let _: u32 = at;
        }
        LexFault::NumberTooWide { at } => {
            let _: u32 = at;
        }
        LexFault::OpenText { at } => {
            let _: u32 = at;
        }
    }
}
