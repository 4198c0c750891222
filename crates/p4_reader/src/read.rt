//! Reading what stands at a token of a text.

ghost use Rattle.std.specs.Prelude.{◌≡◌, ◌+◌, ◌≤◌, ℕ, List, length, map, IfOk, IfErr};
ghost use Rattle.lex_text.specs.Places.{AreIn};
ghost use Rattle.lex_text.specs.Tokens.{TokensOf};
ghost use Rattle.lex_text.specs.declared.token.Words.TheVariants.{P4};
ghost use Rattle.lex_words.specs.Reading.{Gives};
ghost use Rattle.lex_words.specs.Seen.{lexemes_of};
ghost use Rattle.lex_words.specs.Written.{AreLexemes};
ghost use Rattle.p4_tree.specs.Tree.{Expr as Tree, Stmt as StmtTree};
ghost use Rattle.p4_tree.specs.View.{expr_of, stmt_of};
ghost use Rattle.p4_expressions.specs.Reading.{expr_at};
ghost use Rattle.p4_reader.specs.Answers.{AreStmts, AreStmtsAnswer, HasExprCause, HasStmtsCause, IsExpr, IsExprAnswer};
ghost use Rattle.p4_reader.specs.Reading.{rest_at, stop_of};

use crate::left_out::is_left_out;
use crate::stmt::rest;
use crate::stop::ReadStop;
use lex_text::{Token, Words};
use lex_words::{Cursor, Halt};
use p4_expressions::expr;
use p4_tree::{Expr, Stmt};
use std::alloc::Global;

/// Why reading stopped, as the layers above see it.
fn stop(text: &[u8], list: &[Token], halt: Halt) -> ReadStop
    requires { AreIn text.now list.now }
    ensures { result ≡ stop_of (lexemes_of P4 text.now list.now) halt }
{
    match halt {
        Halt::Wrong(at) => {
            if is_left_out(text, list, at as usize) {
                ReadStop::LeftOut { at }
            } else {
                ReadStop::Syntax { at }
            }
        }
        Halt::High(at) => ReadStop::TooDeep { at },
        Halt::Deep(at) => ReadStop::TooDeep { at },
        Halt::NoMemory => ReadStop::NoMemory,
    }
}

/// The expression at a token, and the place behind it.
fn expr_from(
    alloc: Global,
    text: &[u8],
    list: &[Token],
    start: usize,
) -> Result<(Expr, usize), Halt>
    requires fits { AreIn text.now list.now }
    requires fair { AreLexemes P4 (lexemes_of P4 text.now list.now) }
    requires short { length list.now ≤ 16777216 }
    requires inside { start ≤ length list.now }
    ensures { Gives (λ x. (expr_of x.0, x.1)) result (expr_at (lexemes_of P4 text.now list.now) (length (lexemes_of P4 text.now list.now) + 1) 256 256 11 start) }
{
    let mut tokens = Cursor::from_place(Words::P4, text, list, start);
    let found = expr(alloc, &mut tokens, 11, 256, 256)?;
    Ok((found.tree, tokens.at() as usize))
}

/// The statements from a token on up to a closing brace, and the place behind the brace.
fn stmts_from_place(
    alloc: Global,
    text: &[u8],
    list: &[Token],
    start: usize,
) -> Result<(Vec<Stmt>, usize), Halt>
    requires fits { AreIn text.now list.now }
    requires fair { AreLexemes P4 (lexemes_of P4 text.now list.now) }
    requires short { length list.now ≤ 16777216 }
    requires inside { start ≤ length list.now }
    ensures gives { Gives (λ x. (map stmt_of x.0.items, x.1)) result (rest_at (lexemes_of P4 text.now list.now) (length (lexemes_of P4 text.now list.now) + 1) 256 256 start) }
    ensures some { IfOk result (λ x. 1 ≤ x.1) }
{
    let mut tokens = Cursor::from_place(Words::P4, text, list, start);
    let found = rest(alloc, &mut tokens, 256)?;
    Ok((found, tokens.at() as usize))
}

/// The expression that stands at a token of a text, and the place behind it: the first with which no
/// expression goes on. `list` has the tokens of the text.
pub fn read_expr(
    alloc: Global,
    text: &[u8],
    list: &[Token],
    start: usize,
) -> Result<(Expr, usize), ReadStop>
    requires tokens { TokensOf P4 text.now list.now }
    requires short { length text.now ≤ 16777216 }
    requires inside { start ≤ length list.now }
    // What is given stands there, within the limits.
    ensures found { IfOk result (λ x. IsExpr (lexemes_of P4 text.now list.now) start (expr_of x.0) x.1) }
    // Where an expression stands within the limits, it is given, or memory is wanting.
    ensures only { (t : Tree) (q : ℕ) → IsExpr (lexemes_of P4 text.now list.now) start t q → IsExprAnswer result t q }
    // Each refusal has its cause in the tokens.
    ensures cause { IfErr result (HasExprCause (lexemes_of P4 text.now list.now) start) }
{
    match expr_from(alloc, text, list, start) {
        Ok(found) => Ok(found),
        Err(halt) => Err(stop(text, list, halt)),
    }
}

/// The variables and statements of a block from a token of a text on, and the place of the closing
/// brace behind them. `list` has the tokens of the text.
pub fn read_stmts(
    alloc: Global,
    text: &[u8],
    list: &[Token],
    start: usize,
) -> Result<(Vec<Stmt>, usize), ReadStop>
    requires tokens { TokensOf P4 text.now list.now }
    requires short { length text.now ≤ 16777216 }
    requires inside { start ≤ length list.now }
    // What is given stands there, within the limits.
    ensures found { IfOk result (λ x. AreStmts (lexemes_of P4 text.now list.now) start (map stmt_of x.0.items) x.1) }
    // Where statements stand there up to a brace, within the limits, they are given, or memory is wanting.
    ensures only { (ss : List StmtTree) (q : ℕ) → AreStmts (lexemes_of P4 text.now list.now) start ss q → AreStmtsAnswer result ss q }
    // Each refusal has its cause in the tokens.
    ensures cause { IfErr result (HasStmtsCause (lexemes_of P4 text.now list.now) start) }
{
    match stmts_from_place(alloc, text, list, start) {
        Ok((found, end)) => Ok((found, end - 1)),
        Err(halt) => Err(stop(text, list, halt)),
    }
}
