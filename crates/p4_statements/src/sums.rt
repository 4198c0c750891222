//! What checksum calls do.

ghost use Rattle.std.specs.Prelude.{◌≡◌, ◌++◌, OnOk, IfOk, map};
ghost use Rattle.bit_writer.specs.Bytes.{words_bits};
ghost use Rattle.bit_writer.specs.Written.{bits_in};
ghost use Rattle.p4_tree.specs.View.{arg_of, expr_of};
ghost use Rattle.p4_meaning.specs.Checksum.{list_checksum};
ghost use Rattle.p4_meaning.specs.Statements.{sums, sum_of, verified, updated};
ghost use Rattle.p4_statements.specs.Calls.{Does, sum_at, sum_behind};
ghost use Rattle.p4_packets.specs.Fields.{store_of};

use crate::run::Run;
use bit_values::Bits;
use bit_writer::BitWriter;
use lex_text::Name;
use p4_packets::{Fields, assign, standard_path};
use p4_tree::{Arg, Expr};
use p4_values::{Sight, csum16, is_true, values_of};
use std::alloc::{AllocError, Global};

/// The bits of words go behind those that are written.
fn put_words(values: &[Bits], out: &mut BitWriter) -> Result<(), AllocError>
    ensures { OnOk result (bits_in out.new ≡ bits_in out.old ++ words_bits values.now) }
{
    for v in values {
        out.put(v.width(), v.value)?;
    }
    Ok(())
}

/// The checksum of the values of expressions.
fn list_checksum(alloc: Global, list: &[Expr], s: &Fields) -> Result<u16, AllocError>
    ensures { IfOk result (λ n. n ≡ list_checksum (map expr_of list.now) (store_of s.now)) }
{
    let values = values_of(alloc, list, s)?;
    let mut out = BitWriter::new(alloc);
    put_words(&values, &mut out)?;
    let bytes = out.finish();
    Ok(csum16(&bytes))
}

/// A checksum that is verified: where it is wrong, the error is set.
fn verify(alloc: Global, list: &[Expr], field: &[Name], s: &mut Fields) -> Result<(), AllocError>
    ensures { OnOk result (store_of s.new ≡ verified (map expr_of list.now) field.now (store_of s.old)) }
{
    let sum = list_checksum(alloc, list, s)?;
    let found = s.read(field);
    if found.value == sum as u128 {
        Ok(())
    } else {
        let path = standard_path(alloc, "checksum_error")?;
        s.set(alloc, &path, Bits::new(1, 1))?;
        Ok(())
    }
}

/// A checksum that is written.
fn update(alloc: Global, list: &[Expr], field: &[Name], s: &mut Fields) -> Result<(), AllocError>
    ensures { OnOk result (store_of s.new ≡ updated (map expr_of list.now) field.now (store_of s.old)) }
{
    let sum = list_checksum(alloc, list, s)?;
    assign(alloc, field, Bits::new(16, sum as u128), s)?;
    Ok(())
}

/// verify_checksum or update_checksum, of the condition, the list and the field.
fn sum_into(
    alloc: Global,
    verifies: bool,
    condition: &Expr,
    list: &[Expr],
    field: &[Name],
    r: &mut Run,
) -> Result<(), AllocError>
    ensures { OnOk result (Does (sums verifies (expr_of condition.now) (map expr_of list.now) field.now) r.old r.new) }
{
    if is_true(condition, &r.fields) {
        if verifies {
            verify(alloc, list, field, &mut r.fields)?;
            Ok(())
        } else {
            update(alloc, list, field, &mut r.fields)?;
            Ok(())
        }
    } else {
        Ok(())
    }
}

/// The field that a checksum call names, where it is a path.
fn sum_field(
    alloc: Global,
    verifies: bool,
    condition: &Expr,
    list: &[Expr],
    field: &Expr,
    r: &mut Run,
) -> Result<(), AllocError>
    ensures { OnOk result (Does (sum_at verifies (expr_of condition.now) (map expr_of list.now) (expr_of field.now)) r.old r.new) }
{
    match field {
        Expr::Path(_, field) => sum_into(alloc, verifies, condition, list, field, r),
        Expr::Num(_, _) | Expr::Flag(_, _) | Expr::Valid(_, _) => Ok(()),
        Expr::Applied(_, _, _) | Expr::ErrorName(_, _) => Ok(()),
        Expr::Not(_, _) | Expr::Invert(_, _) | Expr::Negate(_, _) => Ok(()),
        Expr::Bin(_, _, _, _) | Expr::Choice(_, _, _, _) => Ok(()),
        Expr::Slice(_, _, _, _) | Expr::Cast(_, _, _) => Ok(()),
    }
}

/// verify_checksum or update_checksum.
pub fn sum(alloc: Global, verifies: bool, args: &[Arg], r: &mut Run) -> Result<(), AllocError>
    ensures { OnOk result (Does (sum_of verifies (map arg_of args.now)) r.old r.new) }
{
    match args {
        [] => Ok(()),
        [condition, rest @ ..] => match condition {
            Arg::Many(_, _) => Ok(()),
            Arg::One(_, condition) => match rest {
                [] => Ok(()),
                [list, rest @ ..] => match list {
                    Arg::One(_, _) => Ok(()),
                    Arg::Many(_, list) => sum_with(alloc, verifies, condition, list, rest, r),
                },
            },
        },
    }
}

/// The field and the algorithm of a checksum call.
fn sum_with(
    alloc: Global,
    verifies: bool,
    condition: &Expr,
    list: &[Expr],
    args: &[Arg],
    r: &mut Run,
) -> Result<(), AllocError>
    ensures { OnOk result (Does (sum_behind verifies (expr_of condition.now) (map expr_of list.now) (map arg_of args.now)) r.old r.new) }
{
    match args {
        [] => Ok(()),
        [field, rest @ ..] => match field {
            Arg::Many(_, _) => Ok(()),
            Arg::One(_, field) => match rest {
                [] => Ok(()),
                [algorithm, rest @ ..] => match algorithm {
                    Arg::Many(_, _) => Ok(()),
                    Arg::One(_, _) => match rest {
                        [] => sum_field(alloc, verifies, condition, list, field, r),
                        [_fifth, _others @ ..] => Ok(()),
                    },
                },
            },
        },
    }
}
