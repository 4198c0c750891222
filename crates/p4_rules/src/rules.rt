//! The first broken rule of a program.

ghost use Rattle.std.specs.Prelude.{◌≡◌, IfOk};
ghost use Rattle.p4_tree.specs.View.{program_of};
ghost use Rattle.p4_scopes.specs.View.{scope_of};
ghost use Rattle.p4_statement_rules.specs.Ranks.{first_from};
ghost use Rattle.p4_rules.specs.Limits.{header_bytes, most_of_program, cells, limit_tests};
ghost use Rattle.p4_rules.specs.ProgramRules.{program_scope, first_fault};

use crate::limits::{fields_bytes, tops_cells};
use crate::mains::{check_main, structs_of};
use p4_declaration_rules::controls::check_tops;
use p4_declaration_rules::firsts::declare_firsts;
use p4_resolved::struct_fields;
use p4_scopes::scope::Scope;
use p4_statement_rules::found::Found;
use p4_statement_rules::rule::ProgramRule;
use p4_tree::Program;
use std::alloc::{AllocError, Global};

/// What is known of a program.
pub struct Checked {
    /// The first broken rule and its place, if there is one.
    pub first: Option<(u32, ProgramRule)>,
    /// The bytes of all headers, as far as 32 bits count them.
    pub header_bytes: u32,
    /// The most digests that a passage gives, as far as 32 bits count them.
    pub digest_bound: u32,
    /// The cells of all registers, as far as 64 bits count them.
    pub cells: u64,
}

impl Drop for Checked {
    fn drop(self) {
        let Checked {
            first: _first,
            header_bytes: _,
            digest_bound: _,
            cells: _,
        } = self;
    }
}

/// Tests the rules of a program.
pub fn check_rules(alloc: Global, program: &Program) -> Result<Checked, AllocError>
    ensures first { IfOk result (λ c. c.first ≡ first_fault (program_of program.now)) }
    ensures header_bytes { IfOk result (λ c. c.header_bytes
        ≡ header_bytes (program_scope (program_of program.now)) (program_of program.now)) }
    ensures digest_bound { IfOk result (λ c. c.digest_bound
        ≡ most_of_program (program_of program.now)) }
    ensures cells { IfOk result (λ c. c.cells ≡ cells (program_of program.now)) }
{
    let mut found = Found::new(alloc);
    let mut scope = Scope::core(alloc);
    let digest_bound = check_tops(&mut found, &program.main, &mut scope, &program.tops)?;
    let mut firsts = Scope::core(alloc);
    declare_firsts(&mut firsts, &program.tops)?;
    let structs = structs_of(alloc, &firsts, program)?;
    check_main(&mut found, &structs, program)?;
    let headers = struct_fields(&program.tops, structs.headers_type.as_str());
    let header_bytes = fields_bytes(&firsts, headers);
    found.test(program.at, ProgramRule::Limit, header_bytes > 2304);
    found.test(program.at, ProgramRule::Limit, digest_bound > 20_480);
    let cells = tops_cells(&program.tops);
    found.test(program.at, ProgramRule::Limit, cells > 4_210_689);
    Ok(Checked {
        first: found.first,
        header_bytes,
        digest_bound,
        cells,
    })
}
