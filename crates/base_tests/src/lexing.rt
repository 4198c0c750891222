//! Tables of texts, with their tokens or their fault worked out by hand.

use lex_text::{Name, Token, TokenKind, Words, tokens};
use std::alloc::{AllocError, Global};
use std::mem::forget;
use std::process::Abort;

/// A name that was made is this one.
fn is_name(rt: &impl Abort, made: Result<Name, AllocError>, wanted: &str) {
    let name = made.expect(rt, "memory");
    assert!(rt; name.as_str() == wanted, "{wanted}");
    forget(name);
}

#[test]
fn names_are_made_and_copied(rt: HostRuntime) {
    let alloc = rt.alloc();
    let name = Name::new(alloc, "hydra_v_n").expect(&rt, "memory");
    is_name(&rt, name.copy(alloc), "hydra_v_n");
    assert!(rt; name.as_str() == "hydra_v_n");
    forget(name);
    is_name(&rt, Name::from_ascii(alloc, b"_x9"), "_x9");
    is_name(&rt, Name::joined(alloc, "hydra_", "mark"), "hydra_mark");
}

/// Puts a text.
pub fn put(rt: &impl Abort, out: &mut String, text: &str) {
    out.push_str(text).expect(rt, "memory");
}

/// A letter for a kind.
fn letter_of(kind: TokenKind) -> &'static str {
    match kind {
        TokenKind::Name => "n",
        TokenKind::Number(_) => "#",
        TokenKind::Text => "t",
        TokenKind::Mark => "m",
        TokenKind::Include => "i",
    }
}

/// Puts a token: the letter of its kind, its places, and a number's width and value.
fn put_token(rt: &impl Abort, alloc: Global, out: &mut String, token: Token) {
    let (letter, start, end) = (letter_of(token.kind), token.start, token.end);
    let places = format!(in alloc; "{letter}{start}-{end}").expect(rt, "memory");
    put(rt, out, &places);
    if let TokenKind::Number(literal) = token.kind {
        let (width, value) = (literal.width, literal.value);
        let number = format!(in alloc; ":{width}:{value}").expect(rt, "memory");
        put(rt, out, &number);
    }
}

/// The tokens with blanks between, `none` where there are none, or the fault.
fn shown(rt: &impl Abort, alloc: Global, text: &[u8], words: Words) -> String {
    assert!(rt; text.len() <= 16777216);
    let mut line = String::new(alloc);
    match tokens(alloc, text, words) {
        Err(fault) => line = format!(in alloc; "{fault:?}").expect(rt, "memory"),
        Ok(list) => {
            for token in &list {
                let space = if line.is_empty() { "" } else { " " };
                put(rt, &mut line, space);
                put_token(rt, alloc, &mut line, *token);
            }
            put(rt, &mut line, if list.is_empty() { "none" } else { "" });
        }
    }
    line
}

/// The text of a row has the tokens that stand behind it, or the fault.
fn is_read(rt: &impl Abort, alloc: Global, words: Words, text: &[u8], wanted: &str) {
    let line = shown(rt, alloc, text, words);
    assert!(rt; line.as_str() == wanted, "{line}, where {wanted} is wanted");
}

/// The two sides of a row.
fn sides<'a>(rt: &impl Abort, row: &'a str) -> (&'a str, &'a str) {
    row.split_once(" => ").expect(rt, "a row of two sides")
}

/// Each row of a table is as it says. Rows have a line feed between, or in texts of several lines two.
fn agree(rt: &impl Abort, alloc: Global, words: Words, table: &str, between: &str) {
    for row in table.split(between) {
        let (text, wanted) = sides(rt, row);
        is_read(rt, alloc, words, text.as_bytes(), wanted);
    }
}

/// Texts of both languages.
const BOTH: &str = "\
|+| => m0-3
|-| => m0-3
&&& => m0-3
&& => m0-2
|| => m0-2
== => m0-2
!= => m0-2
<= => m0-2
>= => m0-2
<< => m0-2
>> => m0-2
++ => m0-2
.. => m0-2
{ => m0-1
} => m0-1
( => m0-1
) => m0-1
[ => m0-1
] => m0-1
< => m0-1
> => m0-1
; => m0-1
: => m0-1
, => m0-1
. => m0-1
= => m0-1
+ => m0-1
- => m0-1
* => m0-1
/ => m0-1
% => m0-1
& => m0-1
| => m0-1
^ => m0-1
~ => m0-1
! => m0-1
? => m0-1
|+|| => m0-3 m3-4
|+ => m0-1 m1-2
|++| => m0-1 m1-3 m3-4
||+| => m0-2 m2-3 m3-4
|-|-| => m0-3 m3-4 m4-5
|- => m0-1 m1-2
&&&& => m0-3 m3-4
&&&&& => m0-3 m3-5
& && => m0-1 m2-4
||| => m0-2 m2-3
=== => m0-2 m2-3
=!= => m0-1 m1-3
!== => m0-2 m2-3
=> => m0-1 m1-2
=< => m0-1 m1-2
<<= => m0-2 m2-3
<<< => m0-2 m2-3
<=< => m0-2 m2-3
<=> => m0-2 m2-3
<> => m0-1 m1-2
>>= => m0-2 m2-3
>>> => m0-2 m2-3
>=> => m0-2 m2-3
> > => m0-1 m2-3
+++ => m0-2 m2-3
+= => m0-1 m1-2
... => m0-2 m2-3
a.b..c => n0-1 m1-2 n2-3 m3-5 n5-6
*/ => m0-1 m1-2
/= => m0-1 m1-2
-| => m0-1 m1-2
&=| => m0-1 m1-2 m2-3
bit<8> => n0-3 m3-4 #4-5:0:8 m5-6
_ => n0-1
_a9Z => n0-4
x_1y => n0-4
Z => n0-1
a-b => n0-1 m1-2 n2-3
tele true if => n0-4 n5-9 n10-12
w8 => n0-2
 => none
a\u{b}b => BadChar { at: 1 }
\u{0} => BadChar { at: 0 }
a \u{7f} => BadChar { at: 2 }
$ => BadChar { at: 0 }
\\ => BadChar { at: 0 }
` => BadChar { at: 0 }
'a' => BadChar { at: 0 }
é => BadChar { at: 0 }
a é => BadChar { at: 2 }
aé => BadChar { at: 1 }
1é => BadChar { at: 1 }
\u{a0} => BadChar { at: 0 }
= 𝄞 => BadChar { at: 2 }
0 => #0-1:0:0
007 => #0-3:0:7
1_000 => #0-5:0:1000
1__0_ => #0-5:0:10
0x1F => #0-4:0:31
0Xff_FF => #0-7:0:65535
0xa_ => #0-4:0:10
0b101 => #0-5:0:5
0B1_0 => #0-5:0:2
8w10 => #0-4:8:10
9w0x1 => #0-5:9:1
1w0b1 => #0-5:1:1
128w5 => #0-5:128:5
008w1_0 => #0-7:8:10
8w300 => #0-5:8:300
0b12 => #0-3:0:1 #3-4:0:2
8w0b12 => #0-5:8:1 #5-6:0:2
0_ => #0-2:0:0
1..2 => #0-1:0:1 m1-3 #3-4:0:2
1.2 => #0-1:0:1 m1-2 #2-3:0:2
-1 => m0-1 #1-2:0:1
8 w => #0-1:0:8 n2-3
340282366920938463463374607431768211455 => #0-39:0:340282366920938463463374607431768211455
0xffffffffffffffffffffffffffffffff => #0-34:0:340282366920938463463374607431768211455
0b11111111111111111111111111111111111111111111111111111111111111111111111111111111111111111111111111111111111111111111111111111111 => #0-130:0:340282366920938463463374607431768211455
128w340282366920938463463374607431768211455 => #0-43:128:340282366920938463463374607431768211455
000000000000000000000000000000000000000000001 => #0-45:0:1
0x00000000000000000000000000000000000000007 => #0-43:0:7
340282366920938463463374607431768211456 => NumberTooWide { at: 0 }
a 0x100000000000000000000000000000000 => NumberTooWide { at: 2 }
0b100000000000000000000000000000000000000000000000000000000000000000000000000000000000000000000000000000000000000000000000000000000 => NumberTooWide { at: 0 }
8w340282366920938463463374607431768211456 => NumberTooWide { at: 0 }
999999999999999999999999999999999999999999999999999999999999 => NumberTooWide { at: 0 }
0w1 => NumberTooWide { at: 0 }
00w1 => NumberTooWide { at: 0 }
129w1 => NumberTooWide { at: 0 }
a 1000w0b1 => NumberTooWide { at: 2 }
340282366920938463463374607431768211456w1 => NumberTooWide { at: 0 }
129w0x => NumberTooWide { at: 0 }
340282366920938463463374607431768211456a => NumberTooWide { at: 0 }
0w1a => NumberTooWide { at: 0 }
1a => BadChar { at: 1 }
12ab => BadChar { at: 2 }
1_a => BadChar { at: 2 }
0x => BadChar { at: 1 }
0xg => BadChar { at: 1 }
0b => BadChar { at: 1 }
0b2 => BadChar { at: 1 }
0x_1 => BadChar { at: 1 }
0b_1 => BadChar { at: 1 }
0x1g => BadChar { at: 3 }
8w => BadChar { at: 1 }
8wx => BadChar { at: 1 }
8w_1 => BadChar { at: 1 }
8w 1 => BadChar { at: 1 }
1_0w8 => BadChar { at: 3 }
8w0x => BadChar { at: 3 }
8w1w1 => BadChar { at: 3 }
8w0w1 => BadChar { at: 3 }
0x1w2 => BadChar { at: 3 }
0b1a => BadChar { at: 3 }
00x1 => BadChar { at: 2 }
129w => BadChar { at: 3 }
// x => none
// => none
/**/ => none
/*/ */ => none
/***/a => n5-6
a/*b*/c => n0-1 n6-7
/* */ */ => m6-7 m7-8
/* // */a => n8-9
/* é € 𝄞 */a => n17-18
/ / => m0-1 m2-3
/ * => m0-1 m2-3
/* => OpenComment { at: 0 }
a /* b => OpenComment { at: 2 }
/*/ => OpenComment { at: 0 }
/* * => OpenComment { at: 0 }
a /* é => OpenComment { at: 2 }
/* */ /* => OpenComment { at: 6 }
/* // */ /* // => OpenComment { at: 9 }";

/// The same, of several lines.
const BOTH_LINES: &str = "\
a b\tc\rd
e => n0-1 n2-3 n4-5 n6-7 n8-9

 \t\r
 => none

a//b
c => n0-1 n5-6

/* a
 */b => n8-9

// /* 
a => n7-8

// é
a => n6-7

a // x\r
b => n0-1 n8-9

//
//
 => none";

/// Texts of programs.
const P4: &str = "\
@ => m0-1
# => m0-1
## => m0-1 m1-2
@a => m0-1 n1-2
#include <core.p4> => i0-18
#include<v1model.p4> => i0-20
#include \"core.p4\" => i0-18
#include\t\r \"v1model.p4\" => i0-23
 \t#include <core.p4> x => i2-20 n21-22
a #include <core.p4> => n0-1 m2-3 n3-10 m11-12 n12-16 m16-17 n17-19 m19-20
/**/#include <core.p4> => m4-5 n5-12 m13-14 n14-18 m18-19 n19-21 m21-22
#include <core.p4>#include <core.p4> => i0-18 m18-19 n19-26 m27-28 n28-32 m32-33 n33-35 m35-36
# include <core.p4> => m0-1 n2-9 m10-11 n11-15 m15-16 n16-18 m18-19
#include <core.p5> => m0-1 n1-8 m9-10 n10-14 m14-15 n15-17 m17-18
#include \"core.p4> => OpenText { at: 9 }
#include => m0-1 n1-8
\"\" => t0-2
\"ab\" c => t0-4 n5-6
\"a//b\" => t0-6
\"/*\" => t0-4
\"a\tb\rc\" => t0-7
\"a\"\"b\" => t0-3 t3-6
\"\\\" => t0-3
a\"b\"c => n0-1 t1-4 n4-5
\" => OpenText { at: 0 }
a \"b => OpenText { at: 2 }
\"é => OpenText { at: 0 }
\"\"  \" => OpenText { at: 4 }
\"é\" => BadChar { at: 1 }
\"aé\" => BadChar { at: 2 }
x \"a€b\" => BadChar { at: 4 }
$ /* => BadChar { at: 0 }
/* $ => OpenComment { at: 0 }
0x /*  => BadChar { at: 1 }
1 $ 0w1 => BadChar { at: 2 }
0w1 $ => NumberTooWide { at: 0 }
\"a $ => OpenText { at: 0 }
1 \"a\" /* => OpenComment { at: 6 }
é \" => BadChar { at: 0 }";

/// The same, of several lines.
const P4_LINES: &str = "\
a
#include <core.p4> => n0-1 i2-20

// c
#include <core.p4> => i5-23

#include <core.p4>
#include <v1model.p4>
 => i0-18 i19-40

#include
<core.p4> => m0-1 n1-8 m9-10 n10-14 m14-15 n15-17 m17-18

/*
*/#include <core.p4> => m5-6 n6-13 m14-15 n15-19 m19-20 n20-22 m22-23

\"a
b\" => OpenText { at: 0 }

\"é
\" => OpenText { at: 0 }";

/// Texts of properties.
const INDUS: &str = "\
@ => BadChar { at: 0 }
# => BadChar { at: 0 }
\" => BadChar { at: 0 }
a@ => BadChar { at: 1 }
\"a\" => BadChar { at: 0 }
#include <core.p4> => BadChar { at: 0 }";

#[test]
fn texts_have_these_tokens(rt: HostRuntime) {
    let alloc = rt.alloc();
    for words in [Words::Indus, Words::P4] {
        agree(&rt, alloc, words, BOTH, "\n");
        agree(&rt, alloc, words, BOTH_LINES, "\n\n");
    }
    agree(&rt, alloc, Words::P4, P4, "\n");
    agree(&rt, alloc, Words::P4, P4_LINES, "\n\n");
    agree(&rt, alloc, Words::Indus, INDUS, "\n");
}

/// Bytes that are no text, in hexadecimal.
const NOT_UTF8: &str = "\
80 => NotUtf8 { at: 0 }
61 80 => NotUtf8 { at: 1 }
61 c3 => NotUtf8 { at: 1 }
c3 28 => NotUtf8 { at: 0 }
e2 82 => NotUtf8 { at: 0 }
e2 28 a1 => NotUtf8 { at: 0 }
e2 82 28 => NotUtf8 { at: 0 }
f0 9f 92 => NotUtf8 { at: 0 }
f0 28 8c bc => NotUtf8 { at: 0 }
f0 90 28 bc => NotUtf8 { at: 0 }
f0 9f 92 28 => NotUtf8 { at: 0 }
c0 80 => NotUtf8 { at: 0 }
ed a0 80 => NotUtf8 { at: 0 }
f4 90 80 80 => NotUtf8 { at: 0 }
ff => NotUtf8 { at: 0 }
c3 a9 ff => NotUtf8 { at: 2 }
24 ff => NotUtf8 { at: 1 }
2f 2a 20 ff 20 2a 2f => NotUtf8 { at: 3 }
2f 2f c3 0a => NotUtf8 { at: 2 }";

/// The bytes of numbers in hexadecimal.
fn bytes_of(rt: &impl Abort, alloc: Global, digits: &str) -> Vec<u8> {
    let mut bytes = Vec::new(alloc);
    for pair in digits.split(' ') {
        let byte = u8::from_str_radix(pair, 16).expect(rt, "hexadecimal digits");
        bytes.push(byte).expect(rt, "memory");
    }
    bytes
}

#[test]
fn bytes_that_are_not_utf8(rt: HostRuntime) {
    for row in NOT_UTF8.lines() {
        let (digits, wanted) = sides(&rt, row);
        let bytes = bytes_of(&rt, rt.alloc(), digits);
        is_read(&rt, rt.alloc(), Words::Indus, &bytes, wanted);
    }
}
