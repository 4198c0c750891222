//! What calls in a control do, but for calls of actions and applications of tables.

ghost use Rattle.std.specs.Prelude.{◌≡◌, ◌≤◌, OnOk, length, map, take};
ghost use Rattle.p4_tree.specs.View.{arg_of, expr_of};
ghost use Rattle.p4_meaning.specs.Store.{made};
ghost use Rattle.p4_meaning.specs.Value.{value_of};
ghost use Rattle.p4_meaning.specs.Statements.{index_of, act_on_header, drops, reads, tells, read_of, write_of, digest_of, receiver_of};
ghost use Rattle.p4_statements.specs.Calls.{Does};
ghost use Rattle.p4_packets.specs.Fields.{store_of};

use crate::run::{Digest, Run};
use arrayvec::ArrayVec;
use bit_values::{Bits, sound_width};
use lex_text::{Literal, Name};
use p4_packets::{Fields, assign, standard_path};
use p4_tree::{Arg, Expr};
use p4_values::{Sight, same_text, value_of};
use std::alloc::{AllocError, Global};

/// setValid and setInvalid.
fn make(alloc: Global, header: &[Name], valid: bool, s: &mut Fields) -> Result<(), AllocError>
    ensures { OnOk result (store_of s.new ≡ made ((store_of s.old).headers header.now) valid (store_of s.old) header.now) }
{
    match s.header(header) {
        None => Ok(()),
        Some(true) => {
            if valid {
                Ok(())
            } else {
                s.set_valid(alloc, header, false)
            }
        }
        Some(false) => {
            if valid {
                s.zero(header);
                s.set_valid(alloc, header, true)
            } else {
                Ok(())
            }
        }
    }
}

/// mark_to_drop.
pub fn drop_packet(alloc: Global, r: &mut Run) -> Result<(), AllocError>
    ensures { OnOk result (Does drops r.old r.new) }
{
    let path = standard_path(alloc, "egress_spec")?;
    r.fields.write(alloc, &path, Bits::new(9, 511))?;
    Ok(())
}

/// The number that an index is.
fn index_of(e: &Expr, s: &Fields) -> u128
    ensures { result ≡ index_of (expr_of e.now) (store_of s.now) }
{
    value_of(e, 128, s).value
}

/// A register's read, of the target and the index.
fn read_into(
    alloc: Global,
    name: &str,
    target: &[Name],
    index: &Expr,
    r: &mut Run,
) -> Result<(), AllocError>
    ensures { OnOk result (Does (reads name.now target.now (expr_of index.now)) r.old r.new) }
{
    let v = r.registers.read(name, index_of(index, &r.fields));
    assign(alloc, target, v, &mut r.fields)?;
    Ok(())
}

/// A register's read.
pub fn read_register(alloc: Global, name: &str, args: &[Arg], r: &mut Run) -> Result<(), AllocError>
    ensures { OnOk result (Does (read_of name.now (map arg_of args.now)) r.old r.new) }
{
    match args {
        [] => Ok(()),
        [first, rest @ ..] => match first {
            Arg::Many(_, _) => Ok(()),
            Arg::One(_, target) => match target {
                Expr::Path(_, target) => match rest {
                    [] => Ok(()),
                    [second, more @ ..] => match second {
                        Arg::Many(_, _) => Ok(()),
                        Arg::One(_, index) => match more {
                            [] => read_into(alloc, name, target, index, r),
                            [_third, _others @ ..] => Ok(()),
                        },
                    },
                },
                Expr::Num(_, _) | Expr::Flag(_, _) | Expr::Valid(_, _) => Ok(()),
                Expr::Applied(_, _, _) | Expr::ErrorName(_, _) => Ok(()),
                Expr::Not(_, _) | Expr::Invert(_, _) | Expr::Negate(_, _) => Ok(()),
                Expr::Bin(_, _, _, _) | Expr::Choice(_, _, _, _) => Ok(()),
                Expr::Slice(_, _, _, _) | Expr::Cast(_, _, _) => Ok(()),
            },
        },
    }
}

/// A register's write.
pub fn write_register(name: &str, args: &[Arg], r: &mut Run)
    ensures { Does (write_of name.now (map arg_of args.now)) r.old r.new }
{
    match args {
        [Arg::One(_, i), Arg::One(_, e)] => {
            let index = index_of(i, &r.fields);
            let old = r.registers.read(name, index);
            let v = value_of(e, old.width(), &r.fields);
            r.registers.write(name, index, v);
        }
        _ => {}
    }
}

/// The receiver that a number is: a written width cuts it.
fn receiver_of(n: &Literal) -> u32
    ensures { result ≡ receiver_of n.now }
{
    let number = Bits::new(128, n.value).cast(sound_width(n.width));
    number.cast(32).value as u32
}

/// The values of so many expressions.
fn values_of(list: &[Expr], s: &Fields) -> ArrayVec<Bits, 9>
    requires { length list.now ≤ 9 }
    ensures { result.items ≡ map (λ e. value_of e 0 (store_of s.now)) (map expr_of list.now) }
{
    let mut values = ArrayVec::new();
    for e in list {
        values.push(value_of(e, 0, s));
    }
    values
}

/// The first nine of a list.
fn first_nine(list: &[Expr]) -> &[Expr]
    ensures { result.now ≡ take 9 list.now }
{
    if list.len() < 9 { list } else { &list[..9] }
}

/// The values that a digest hands up, nine at most.
fn told_values(list: &[Expr], s: &Fields) -> ArrayVec<Bits, 9>
    ensures { result.items ≡ take 9 (map (λ e. value_of e 0 (store_of s.now)) (map expr_of list.now)) }
{
    values_of(first_nine(list), s)
}

/// A digest, of the receiver and the values.
fn tell_to(receiver: u32, list: &[Expr], r: &mut Run) -> Result<(), AllocError>
    ensures { OnOk result (Does (tells receiver (map expr_of list.now)) r.old r.new) }
{
    let values = told_values(list, &r.fields);
    r.digests.push(Digest { receiver, values })?;
    Ok(())
}

/// digest.
pub fn tell(args: &[Arg], r: &mut Run) -> Result<(), AllocError>
    ensures { OnOk result (Does (digest_of (map arg_of args.now)) r.old r.new) }
{
    match args {
        [] => Ok(()),
        [first, rest @ ..] => match first {
            Arg::Many(_, _) => Ok(()),
            Arg::One(_, e) => match e {
                Expr::Num(_, n) => match rest {
                    [] => Ok(()),
                    [second, more @ ..] => match second {
                        Arg::One(_, _) => Ok(()),
                        Arg::Many(_, list) => match more {
                            [] => tell_to(receiver_of(n), list, r),
                            [_third, _others @ ..] => Ok(()),
                        },
                    },
                },
                Expr::Path(_, _) | Expr::Flag(_, _) | Expr::Valid(_, _) => Ok(()),
                Expr::Applied(_, _, _) | Expr::ErrorName(_, _) => Ok(()),
                Expr::Not(_, _) | Expr::Invert(_, _) | Expr::Negate(_, _) => Ok(()),
                Expr::Bin(_, _, _, _) | Expr::Choice(_, _, _, _) => Ok(()),
                Expr::Slice(_, _, _, _) | Expr::Cast(_, _, _) => Ok(()),
            },
        },
    }
}

/// A call on a header.
pub fn call_on_header(
    alloc: Global,
    header: &[Name],
    verb: &str,
    r: &mut Run,
) -> Result<(), AllocError>
    ensures { OnOk result (Does (act_on_header header.now verb.now) r.old r.new) }
{
    if same_text(verb, "setValid") {
        make(alloc, header, true, &mut r.fields)?;
        Ok(())
    } else if same_text(verb, "setInvalid") {
        make(alloc, header, false, &mut r.fields)?;
        Ok(())
    } else {
        Ok(())
    }
}
