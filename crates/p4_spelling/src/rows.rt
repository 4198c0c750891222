// Worked rows: small texts, and the trees that they spell.
ghost use Rattle.std.specs.Prelude.{false};
ghost use Rattle.p4_spelling.specs.Operators.{top};
ghost use Rattle.p4_spelling.specs.Expressions.{Spells};
ghost use Rattle.p4_spelling.specs.Statements.{SpellsStmt};
ghost use Rattle.p4_spelling.specs.Types.{SpellsRegister};
ghost use Rattle.p4_spelling.specs.Controls.{SpellsTable};
ghost use Rattle.p4_spelling.specs.Example.{cast_lexemes, cast_tree, conditional_lexemes, conditional_tree, concat_lexemes, concat_tree, slice_lexemes, slice_tree, valid_lexemes, valid_tree, applied_lexemes, applied_tree, else_lexemes, else_tree, register_lexemes, register_tree, table_lexemes, table_tree};

/// Expressions: a cast binds tighter than `+`, `? :` groups to the right, `++` stands on the level
/// of `+`, a slice binds tighter than a sign, and the two calls.
fn expressions()
    ensures a_cast { Spells top 0 cast_tree cast_lexemes }
    ensures a_conditional { Spells top 0 conditional_tree conditional_lexemes }
    ensures a_concatenation { Spells top 0 concat_tree concat_lexemes }
    ensures a_slice { Spells top 0 slice_tree slice_lexemes }
    ensures a_validity { Spells top 0 valid_tree valid_lexemes }
    ensures an_application { Spells top 0 applied_tree applied_lexemes }
{}

/// An `else` belongs to the nearest `if`.
fn nearest_else()
    ensures { SpellsStmt false 0 else_tree else_lexemes }
{}

/// Declarations: the mark `>>` closes both `<` of a register's type, and a table's properties stand
/// in any order.
fn declarations()
    ensures a_register { SpellsRegister 0 register_tree register_lexemes }
    ensures a_table { SpellsTable 0 table_tree table_lexemes }
{}

#[test]
fn worked_rows() {
    expressions();
    nearest_else();
    declarations();
}
