//! Programs that are read, printed and copied: their words, worked by hand.

use crate::programs::{sample, spells};
use crate::show::{put, same, sides};
use p4_printer::print_program;
use std::alloc::Global;
use std::mem::forget;
use std::process::Abort;

/// The text of a program of one control that does one statement.
fn one_statement(rt: &impl Abort, alloc: Global, statement: &str) -> String {
    let mut text = String::new(alloc);
    put(rt, &mut text, "control c ( in h k ) { apply { ");
    put(rt, &mut text, statement);
    put(rt, &mut text, " } } V1Switch ( c ( ) ) main ;");
    text
}

/// Statements, and their words where they are others.
const STATEMENTS: &str = "\
x = a * b + c - d ++ e << f >> g & h ^ i | j ; => x = ( ( ( ( ( ( ( ( ( a * b ) + c ) - d ) ++ e ) << f ) >> g ) & h ) ^ i ) | j ) ;
x = a < b == c <= d && e > f || g >= h != i ; => x = ( ( ( ( a < b ) == ( c <= d ) ) && ( e > f ) ) || ( ( g >= h ) != i ) ) ;
m.f=(bit<9>)(a+b); => m . f = ( ( bit < 9 > ) ( a + b ) ) ;
f = ! false ; => f = ( ! false ) ;
x = ~ ( a + b ) ; => x = ( ~ ( a + b ) ) ;
x = - 8w0x1 ; => x = ( - 8w1 ) ;
x = ( bool ) ( bit ) y ; => x = ( ( bool ) ( ( bit < 1 > ) y ) ) ;
x = a == b ? m . f : ( a ++ b ) [ 11 : 4 ] ; => x = ( ( a == b ) ? m . f : ( a ++ b ) [ 11 : 4 ] ) ;
x = m.f[127:0][0:0]; => x = m . f [ 127 : 0 ] [ 0 : 0 ] ;
x = error.NoMatch; => x = error . NoMatch ;
if (t.apply().hit) ; else exit; => if ( t . apply ( ) . hit ) ; else exit ;
if (!t.apply().miss) return; => if ( ( ! t . apply ( ) . miss ) ) return ;
bit<128> x = 128w340282366920938463463374607431768211455; => bit < 128 > x = 128w340282366920938463463374607431768211455 ;
bool y; => bool y ;
t z = 0b1010; => t z = 10 ;
; => ;
if (hdr.h.isValid()) { return; ; } else exit; => if ( hdr . h . isValid ( ) ) { return ; ; } else exit ;
if (true) if (false) ; else exit; => if ( true ) if ( false ) ; else exit ;
digest(32w7, {x, hdr.h.a}); => digest ( 32w7 , { x , hdr . h . a } ) ;
t.apply(); => t . apply ( ) ;";

#[test]
fn statements(rt: HostRuntime) {
    for row in STATEMENTS.lines() {
        let (statement, wanted) = sides(&rt, row, " => ");
        let text = one_statement(&rt, rt.alloc(), statement);
        spells(
            &rt,
            rt.alloc(),
            &text,
            &one_statement(&rt, rt.alloc(), wanted),
        );
    }
}

/// Each declaration, as it is printed.
const DECLARATIONS: &str = "\
const bit < 8 > most = 8w255 ;
typedef bit < 9 > port_t ;
header h_t { bit < 8 > a ; bit < 16 > b ; }
struct H { h_t h ; }
register < bit < 32 > > ( 4194304 ) r ;
parser P ( packet_in packet , out H hdr ) {
state start { packet . extract ( hdr . h ) ;
transition select ( hdr . h . a , meta . b ) {
( 8w72 , 1 &&& 3 ) : more ; default : accept ; } }
state more { transition last ; } state last { } }
control C ( inout H hdr , in M meta ) {
action a ( bit < 8 > v , port_t w ) { meta . b = v ; }
table t { key = { hdr . h . a : exact ; ( a + b ) : ternary ; }
actions = { a ; NoAction ; } size = 16 ;
const default_action = a ( 8w1 , 3 ) ; }
table u { key = { } actions = { } }
table u { key = { } actions = { } default_action = NoAction ( ) ; }
register < bit < 8 > > ( 2 ) own ;
const bool on = true ;
bool seen = false ; apply { ; exit ; } }
V1Switch ( P ( ) , C ( ) ) main ;";

#[test]
fn declarations(rt: HostRuntime) {
    spells(&rt, rt.alloc(), DECLARATIONS, DECLARATIONS);
}

/// These declarations as they are laid out: each form of declaration, statement and expression.
const LAID_OUT: &str = "\
#include <core.p4>
#include <v1model.p4>

const bit<8> most = 8w255;

typedef bit<9> port_t;

header h_t {
    bit<8> a;
    bit<16> b;
}

struct H {
    h_t h;
}

struct M { }

register<bit<32> >(4194304) r;

parser P(packet_in packet, out H hdr) {
    state start {
        packet.extract(hdr.h);
        transition select(hdr.h.a, meta.b) {
            (8w72, 1 &&& 3): more;
            default: accept;
        }
    }
    state more {
        transition last;
    }
    state last { }
}

control C(inout H hdr, in M meta) {
    action a(bit<8> v, port_t w) {
        meta.b = ((bit<16>) (v + (~(-x))));
    }
    table t {
        key = {
            hdr.h.a: exact;
            (a + b)[7:0]: ternary;
        }
        actions = {
            a;
            NoAction;
        }
        size = 16;
        const default_action = a(8w1, 3);
    }
    table u {
        key = { }
        actions = { }
    }
    register<bit<8> >(2) own;
    bool seen = false;
    apply {
        ;
        digest(32w7, { x, hdr.h.a });
        if ((!t.apply().hit)) {
            x = ((a < b) ? m.f : (a >> 2));
        } else if (hdr.h.isValid()) {
            own.read(x, 0);
            {
                exit;
            }
        } else return;
    }
}

V1Switch(P(), C()) main;
";

#[test]
fn laid_out(rt: HostRuntime) {
    let program = sample(&rt, rt.alloc(), LAID_OUT);
    let printed = print_program(rt.alloc(), &program).expect(&rt, "memory");
    forget(program);
    same(&rt, &printed, LAID_OUT, "laid out");
}
