//! The forwarding program's own code in a linked program.
//!
//! The crate has definitions and laws, and no code. The layers above get `IsForwarding`, which says what
//! programs are linked, and the law of own code: a region of the program does the same in both networks,
//! its actions and tables too, and leaves the monitor's part as it was.
//!
//! Follows: P4_16 and v1model, this project's subset.
//!
//! Not promised: `return` and `exit`, in actions neither.
#![tactic(auto)]

ghost use Rattle.std.specs.Prelude.{◌≡◌, ℕ, List, Some};
ghost use Rattle.std.specs.List.{AllByRecursion};
ghost use Rattle.p4_tree.specs.Tree.{Expr, Stmts};
ghost use Rattle.p4_meaning.specs.Statements.{Run, Act, done_by, Calls, no_calls, tested, meaning_of};
ghost use Rattle.p4_meaning.specs.Actions.{Action};
ghost use Rattle.p4_meaning.specs.Tables.{Table, table_named, Entries, Tables, calls_in};
ghost use Rattle.p4_meaning.specs.Laws.{RunsListed};
ghost use Rattle.own_code.specs.Forwarding.{IsOwnAct, IsOwnTest, AreOwnStmts, IsOwnAction, IsOwnTable};
ghost use Rattle.own_code.specs.Relations.{Alike};
ghost use Rattle.own_code.specs.OwnCode.{Ran, RanTest, AreAlikeCalls, HasOwn, HoldSame, RunsSame, AreOwnEntries};

/// Own code on runs that are alike ends alike, goes on, and leaves the monitor's part as it was,
/// whatever actions and tables do, if these keep to the same. So do own actions, and own tables
/// that hold the same, with a hit and with a miss; in a program with more actions and tables too,
/// where these have the monitor's names and own tables choose none of these actions; and so does
/// what calls nothing.
pub fn own_code_does_the_same()
    ensures statements { (c d : Calls) → AreAlikeCalls c d → (ss : Stmts) (a b : Run) → AreOwnStmts ss → Alike a b →
        Ran b (meaning_of c ss a) (meaning_of d ss b) }
    ensures acts { (c d : Calls) → AreAlikeCalls c d → (k : Act) (a b : Run) → IsOwnAct k → Alike a b →
        Ran b (done_by c k a) (done_by d k b) }
    ensures tests { (c d : Calls) → AreAlikeCalls c d → (e : Expr) (a b : Run) → IsOwnTest e → Alike a b →
        RanTest b (tested c e a) (tested d e b) }
    ensures calls { (actions : List Action) (tables : List Table) (held held' : Tables) →
        AllByRecursion IsOwnAction actions → AllByRecursion IsOwnTable tables → HoldSame held held' →
        AreAlikeCalls (calls_in actions tables held) (calls_in actions tables held') }
    ensures more_calls { (actions actions' : List Action) (tables tables' : List Table) (held held' : Tables) →
        AllByRecursion IsOwnAction actions → AllByRecursion IsOwnTable tables → HasOwn actions actions' tables tables' →
        HoldSame held held' → ((x : List ℕ) (t : Table) → table_named tables x ≡ Some t → RunsSame actions actions' (held x)) →
        AreAlikeCalls (calls_in actions tables held) (calls_in actions' tables' held') }
    ensures no_calls { AreAlikeCalls no_calls no_calls }
{}

/// Own tables run own actions, where what they hold runs actions of their lists or their defaults.
pub fn own_tables_run_own_actions()
    ensures { (tables : List Table) → AllByRecursion IsOwnTable tables → (x : List ℕ) (t : Table) → table_named tables x ≡ Some t →
        (held : Entries) → RunsListed (table_named tables x) held → AreOwnEntries held }
{}
