//! Reserved words and marks of both languages, and tokens as words.

ghost use Rattle.lex_text.specs.Places.{AreIn};

use crate::lexing::put;
use lex_text::{Literal, Token, Words, tokens};
use lex_words::{
    Key, is_inclusion, is_key, is_named, is_text, key_at, mark, name_at, number_at, reserved,
};
use std::alloc::Global;
use std::process::Abort;

/// Reserved words of properties, and words that are none.
const RESERVED_INDUS: &str = "\
bit Bit
bool Bool
control Control
dict Dict
edition Edition
else Else
false False
for For
header Header
if If
in In
length Length
reject Reject
report Report
sensor Sensor
set Set
tele Tele
true True
_ none
const none
typedef none
struct none
register none
parser none
out none
inout none
state none
transition none
select none
default none
action none
table none
return none
exit none
error none
V1Switch none
apply none
key none
main none
Tele none
tel none
telemetry none
 none
first_hop none
push none
hdr none";

/// Reserved words of programs, and words that are none.
const RESERVED_P4: &str = "\
V1Switch V1Switch
_ LowLine
action Action
bit Bit
bool Bool
const Const
control Control
default Default
else Else
error Error
exit Exit
false False
header Header
if If
in In
inout Inout
out Out
parser Parser
register Register
return Return
select Select
state State
struct Struct
table Table
transition Transition
true True
typedef Typedef
tele none
sensor none
set none
dict none
for none
reject none
report none
length none
edition none
apply none
key none
actions none
size none
default_action none
main none
hit none
miss none
isValid none
extract none
enum none
switch none
int none
varbit none
entries none
range none
__ none
v1switch none
Error none
 none
bits none";

/// Marks, and texts that are none.
const MARKS: &str = "\
|+| AddCapped
|-| SubCapped
&&& Mask
&& Both
|| Either
== Equal
!= Differ
<= LessEq
>= MoreEq
<< ShiftLeft
>> ShiftRight
++ Concat
.. DotDot
{ BraceOpen
} BraceClose
( Open
) Close
[ SquareOpen
] SquareClose
< Less
> More
; Semicolon
: Colon
, Comma
. Dot
= Assign
+ Plus
- Minus
* Times
/ Slash
% Percent
& And
| Or
^ Caret
~ Tilde
! Not
? Question
@ At
# Hash
 none
a none
&&&& none
|+ none
// none
/* none
\" none
=> none
-> none
_ none";

/// Puts the name of a key.
fn put_key(rt: &impl Abort, alloc: Global, out: &mut String, key: Option<Key>) {
    if let Some(key) = key {
        let name = format!(in alloc; "{key:?}").expect(rt, "memory");
        put(rt, out, &name);
    }
}

/// Each text of a table is this word of a language, or this mark where there is none.
fn are_keys(rt: &impl Abort, alloc: Global, words: Option<Words>, table: &str) {
    for row in table.lines() {
        let (text, wanted) = row.split_once(" ").expect(rt, "a text and a key");
        let key = match words {
            Some(words) => reserved(words, text.as_bytes()),
            None => mark(text.as_bytes()),
        };
        let mut found = String::new(alloc);
        put_key(rt, alloc, &mut found, key);
        put(rt, &mut found, if key.is_none() { "none" } else { "" });
        assert!(rt; found.as_str() == wanted, "{row}");
    }
}

#[test]
fn reserved_words_and_marks(rt: HostRuntime) {
    let alloc = rt.alloc();
    are_keys(&rt, alloc, Some(Words::Indus), RESERVED_INDUS);
    are_keys(&rt, alloc, Some(Words::P4), RESERVED_P4);
    are_keys(&rt, alloc, None, MARKS);
}

/// Puts the number at a place.
fn put_number(rt: &impl Abort, alloc: Global, out: &mut String, number: Option<Literal>) {
    if let Some(literal) = number {
        let (width, value) = (literal.width, literal.value);
        let number = format!(in alloc; "{width}w{value}").expect(rt, "memory");
        put(rt, out, &number);
    }
}

/// A key, if any, is told by its own test, and no other.
fn is_key_told(words: Words, text: &[u8], list: &[Token], at: usize, key: Option<Key>) -> bool
    requires { AreIn text.now list.now }
{
    !is_key(words, text, list, at, Key::Bool)
        && match key {
            Some(key) => is_key(words, text, list, at, key),
            None => true,
        }
}

/// Puts what stands at a place, where it is no name: a key, a number, `text` or `include`.
fn put_word(
    rt: &impl Abort,
    alloc: Global,
    out: &mut String,
    words: Words,
    text: &[u8],
    list: &[Token],
    at: usize,
)
    requires { AreIn text.now list.now }
{
    let key = key_at(words, text, list, at);
    assert!(rt; is_key_told(words, text, list, at, key));
    put_key(rt, alloc, out, key);
    put_number(rt, alloc, out, number_at(list, at));
    put(rt, out, if is_text(list, at) { "text" } else { "" });
    put(
        rt,
        out,
        if is_inclusion(list, at) {
            "include"
        } else {
            ""
        },
    );
}

/// The name at a place is this one, or none where it is empty.
fn is_name_told(words: Words, text: &[u8], list: &[Token], at: usize, name: &str) -> bool
    requires { AreIn text.now list.now }
{
    !is_named(words, text, list, at, b"tele")
        && match name_at(words, text, list, at) {
            Some(found) => found == name.as_bytes() && is_named(words, text, list, at, found),
            None => name.is_empty(),
        }
}

/// The words of a text, each a key, a name behind `=`, a number, `text`, `include`, or `-` at the end.
fn are_words(rt: &impl Abort, alloc: Global, words: Words, text: &[u8], wanted: &str) {
    assert!(rt; text.len() <= 16777216);
    let list = tokens(alloc, text, words).expect(rt, "tokens");
    let mut at: usize = 0;
    for word in wanted.split(' ') {
        let name = word.strip_prefix("=").unwrap_or("");
        assert!(rt; is_name_told(words, text, &list, at, name), "{word}");
        let mut found = String::new(alloc);
        put_word(rt, alloc, &mut found, words, text, &list, at);
        let other = if name.is_empty() { "-" } else { word };
        let told = if found.is_empty() {
            other
        } else {
            found.as_str()
        };
        assert!(rt; told == word, "{word}");
        at = at.wrapping_add(1);
    }
    assert!(rt; at == list.len().wrapping_add(1));
}

#[test]
fn words_of_texts(rt: HostRuntime) {
    are_words(
        &rt,
        rt.alloc(),
        Words::Indus,
        b"tele bit<8> n; // a list\n { n = 4w7 + state; }",
        "Tele Bit Less 0w8 More =n Semicolon BraceOpen =n Assign 4w7 Plus =state Semicolon BraceClose -",
    );
    are_words(
        &rt,
        rt.alloc(),
        Words::P4,
        b"#include <core.p4>\nheader h_t { bit<9> _; } @name(\"a b\") >> #",
        "include Header =h_t BraceOpen Bit Less 0w9 More LowLine Semicolon BraceClose At =name Open text Close ShiftRight Hash -",
    );
}
