//! What calls are for.

ghost use Rattle.std.specs.Prelude.{◌≡◌, map};
ghost use Rattle.p4_tree.specs.View.{arg_of, expr_of};
ghost use Rattle.p4_meaning.specs.Statements as meaning;
ghost use Rattle.p4_meaning.specs.Statements.{act_named, act_on, act_on_header, digest_of, read_of, receiver_of, sum_of, write_of};
ghost use Rattle.slot_control_codes.specs.Acts.{act_in, sum_at, sum_behind};

use bit_values::{Bits, sound_width};
use lex_text::{Literal, Name};
use p4_tree::{Arg, Expr};
use p4_values::{parent, same_text};

/// What a call is for.
#[derive(Clone, Copy)]
pub enum Act<'a> {
    /// setValid or setInvalid of a header.
    Make(&'a [Name], bool),
    /// mark_to_drop.
    Drop,
    /// A register's read: the register, the target and the index.
    Read(&'a str, &'a [Name], &'a Expr),
    /// A register's write: the register, the index and the value.
    Write(&'a str, &'a Expr, &'a Expr),
    /// A digest: its receiver and its values.
    Tell(u32, &'a [Expr]),
    /// verify_checksum, or update_checksum: the condition, the list and the field.
    Sum(bool, &'a Expr, &'a [Expr], &'a [Name]),
    /// An action, with arguments.
    Run(&'a str, &'a [Arg]),
    /// The application of a table.
    Apply(&'a str),
    /// Nothing.
    Idle,
}

/// A register's read.
fn read_of<'a>(register: &'a str, args: &'a [Arg]) -> Act<'a>
    ensures { act_in result ≡ read_of register.now (map arg_of args.now) }
{
    match args {
        [] => Act::Idle,
        [first, rest @ ..] => match first {
            Arg::Many(_, _) => Act::Idle,
            Arg::One(_, target) => match target {
                Expr::Path(_, target) => match rest {
                    [] => Act::Idle,
                    [second, more @ ..] => match second {
                        Arg::Many(_, _) => Act::Idle,
                        Arg::One(_, index) => match more {
                            [] => Act::Read(register, target, index),
                            [_third, _others @ ..] => Act::Idle,
                        },
                    },
                },
                Expr::Num(_, _) | Expr::Flag(_, _) | Expr::Valid(_, _) => Act::Idle,
                Expr::Applied(_, _, _) | Expr::ErrorName(_, _) => Act::Idle,
                Expr::Not(_, _) | Expr::Invert(_, _) | Expr::Negate(_, _) => Act::Idle,
                Expr::Bin(_, _, _, _) | Expr::Choice(_, _, _, _) => Act::Idle,
                Expr::Slice(_, _, _, _) | Expr::Cast(_, _, _) => Act::Idle,
            },
        },
    }
}

/// A register's write.
fn write_of<'a>(register: &'a str, args: &'a [Arg]) -> Act<'a>
    ensures { act_in result ≡ write_of register.now (map arg_of args.now) }
{
    match args {
        [Arg::One(_, index), Arg::One(_, value)] => Act::Write(register, index, value),
        _ => Act::Idle,
    }
}

/// The receiver that a number is: a written width cuts it.
fn receiver_of(n: &Literal) -> u32
    ensures { result ≡ receiver_of n.now }
{
    let number = Bits::new(128, n.value).cast(sound_width(n.width));
    number.cast(32).value as u32
}

/// A digest.
fn digest_of(args: &[Arg]) -> Act<'_>
    ensures { act_in result ≡ digest_of (map arg_of args.now) }
{
    match args {
        [] => Act::Idle,
        [first, rest @ ..] => match first {
            Arg::Many(_, _) => Act::Idle,
            Arg::One(_, e) => match e {
                Expr::Num(_, n) => match rest {
                    [] => Act::Idle,
                    [second, more @ ..] => match second {
                        Arg::One(_, _) => Act::Idle,
                        Arg::Many(_, list) => match more {
                            [] => Act::Tell(receiver_of(n), list),
                            [_third, _others @ ..] => Act::Idle,
                        },
                    },
                },
                Expr::Path(_, _) | Expr::Flag(_, _) | Expr::Valid(_, _) => Act::Idle,
                Expr::Applied(_, _, _) | Expr::ErrorName(_, _) => Act::Idle,
                Expr::Not(_, _) | Expr::Invert(_, _) | Expr::Negate(_, _) => Act::Idle,
                Expr::Bin(_, _, _, _) | Expr::Choice(_, _, _, _) => Act::Idle,
                Expr::Slice(_, _, _, _) | Expr::Cast(_, _, _) => Act::Idle,
            },
        },
    }
}

/// A checksum of a field, where that is a path.
fn sum_at<'a>(verifies: bool, condition: &'a Expr, list: &'a [Expr], field: &'a Expr) -> Act<'a>
    ensures { act_in result ≡ sum_at verifies (expr_of condition.now) (map expr_of list.now) (expr_of field.now) }
{
    match field {
        Expr::Path(_, field) => Act::Sum(verifies, condition, list, field),
        Expr::Num(_, _) | Expr::Flag(_, _) | Expr::Valid(_, _) => Act::Idle,
        Expr::Applied(_, _, _) | Expr::ErrorName(_, _) => Act::Idle,
        Expr::Not(_, _) | Expr::Invert(_, _) | Expr::Negate(_, _) => Act::Idle,
        Expr::Bin(_, _, _, _) | Expr::Choice(_, _, _, _) => Act::Idle,
        Expr::Slice(_, _, _, _) | Expr::Cast(_, _, _) => Act::Idle,
    }
}

/// A checksum call from the field on.
fn sum_behind<'a>(verifies: bool, condition: &'a Expr, list: &'a [Expr], args: &'a [Arg]) -> Act<'a>
    ensures { act_in result ≡ sum_behind verifies (expr_of condition.now) (map expr_of list.now) (map arg_of args.now) }
{
    match args {
        [] => Act::Idle,
        [field, rest @ ..] => match field {
            Arg::Many(_, _) => Act::Idle,
            Arg::One(_, field) => match rest {
                [] => Act::Idle,
                [algorithm, rest @ ..] => match algorithm {
                    Arg::Many(_, _) => Act::Idle,
                    Arg::One(_, _) => match rest {
                        [] => sum_at(verifies, condition, list, field),
                        [_fifth, _others @ ..] => Act::Idle,
                    },
                },
            },
        },
    }
}

/// verify_checksum or update_checksum.
fn sum_of(verifies: bool, args: &[Arg]) -> Act<'_>
    ensures { act_in result ≡ sum_of verifies (map arg_of args.now) }
{
    match args {
        [] => Act::Idle,
        [condition, rest @ ..] => match condition {
            Arg::Many(_, _) => Act::Idle,
            Arg::One(_, condition) => match rest {
                [] => Act::Idle,
                [list, rest @ ..] => match list {
                    Arg::One(_, _) => Act::Idle,
                    Arg::Many(_, list) => sum_behind(verifies, condition, list, rest),
                },
            },
        },
    }
}

/// A call by one name.
fn act_named<'a>(x: &'a str, args: &'a [Arg]) -> Act<'a>
    ensures { act_in result ≡ act_named x.now (map arg_of args.now) }
{
    if same_text(x, "mark_to_drop") {
        Act::Drop
    } else if same_text(x, "digest") {
        digest_of(args)
    } else if same_text(x, "verify_checksum") {
        sum_of(true, args)
    } else if same_text(x, "update_checksum") {
        sum_of(false, args)
    } else {
        Act::Run(x, args)
    }
}

/// A call on a register or a table.
fn act_on<'a>(x: &'a str, verb: &str, args: &'a [Arg]) -> Act<'a>
    ensures { act_in result ≡ act_on x.now verb.now (map arg_of args.now) }
{
    if same_text(verb, "read") {
        read_of(x, args)
    } else if same_text(verb, "write") {
        write_of(x, args)
    } else if same_text(verb, "apply") {
        Act::Apply(x)
    } else {
        Act::Idle
    }
}

/// A call on a header.
fn act_on_header<'a>(header: &'a [Name], verb: &str) -> Act<'a>
    ensures { act_in result ≡ act_on_header header.now verb.now }
{
    if same_text(verb, "setValid") {
        Act::Make(header, true)
    } else if same_text(verb, "setInvalid") {
        Act::Make(header, false)
    } else {
        Act::Idle
    }
}

/// What a call is for.
pub fn act_of<'a>(callee: &'a [Name], args: &'a [Arg]) -> Act<'a>
    ensures { act_in result ≡ meaning.act_of callee.now (map arg_of args.now) }
{
    match callee {
        [] => Act::Idle,
        [x, rest @ ..] => match rest {
            [] => act_named(x.as_str(), args),
            [y, rest @ ..] => match rest {
                [] => act_on(x.as_str(), y.as_str(), args),
                [verb, rest @ ..] => match rest {
                    [] => act_on_header(parent(callee), verb.as_str()),
                    [_fourth, _others @ ..] => Act::Idle,
                },
            },
        },
    }
}
