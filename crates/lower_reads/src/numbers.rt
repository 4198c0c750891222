//! The reads of flat code with their numbers.

ghost use Rattle.std.specs.Prelude.{◌≡◌, ◌+◌, ◌++◌, IfOk, OnOk};
ghost use Rattle.indus_tree.specs.View.{block_of, stmt_of};
ghost use Rattle.lowered_code.specs.Statements as code;
ghost use Rattle.lower_reads.specs.View.{declared, reads_of};

use crate::declarations::Declarations;
use crate::reads::{read_decl, stmt_reads};
use indus_tree::{Decl, Stmt};
use std::alloc::{AllocError, Global};

/// A read with its number, and the declaration of what it reads.
#[derive(Clone, Copy)]
pub struct Read<'a> {
    pub number: u32,
    pub decl: Option<&'a Decl>,
}

/// The sum of two numbers, if 32 bits hold it. No memory holds so many reads.
pub fn number_at(base: u32, more: usize) -> Result<u32, AllocError>
    ensures { IfOk result (λ n. n ≡ base + more) }
{
    match u32::try_from(more) {
        Ok(more) => base.checked_add(more).ok_or(AllocError),
        Err(_) => Err(AllocError),
    }
}

/// The reads of a statement; the answer is the number behind it.
#[cycle(numbers)]
fn stmt_numbers<'a>(
    alloc: Global,
    decls: &'a Declarations,
    s: &Stmt,
    base: u32,
    out: &mut Vec<Read<'a>>,
) -> Result<u32, AllocError>
    ensures numbers { OnOk result (reads_of out.new.items ≡ reads_of out.old.items ++ code.stmt_numbers (declared decls.now) (stmt_of s.now) base) }
    ensures end { IfOk result (λ n. n ≡ code.stmt_end (declared decls.now) (stmt_of s.now) base) }
{
    let reads = stmt_reads(alloc, decls, s)?;
    for i in 0..reads.len() {
        out.push(Read {
            number: number_at(base, i)?,
            decl: read_decl(decls, reads[i]),
        })?;
    }
    let end = number_at(base, reads.len())?;
    if let Stmt::If(_, _, a, b) = s {
        let middle = block_numbers(alloc, decls, a, end, out)?;
        return block_numbers(alloc, decls, b, middle, out);
    }
    Ok(end)
}

/// The reads of a block; the answer is the number behind it.
#[cycle(numbers)]
pub fn block_numbers<'a>(
    alloc: Global,
    decls: &'a Declarations,
    block: &[Stmt],
    base: u32,
    out: &mut Vec<Read<'a>>,
) -> Result<u32, AllocError>
    ensures numbers { OnOk result (reads_of out.new.items ≡ reads_of out.old.items ++ code.block_numbers (declared decls.now) (block_of block.now) base) }
    ensures end { IfOk result (λ n. n ≡ code.block_end (declared decls.now) (block_of block.now) base) }
{
    let mut end = base;
    for s in block {
        end = stmt_numbers(alloc, decls, s, end, out)?;
    }
    Ok(end)
}
