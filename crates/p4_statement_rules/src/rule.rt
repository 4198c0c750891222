//! The rules, and the parts of a program.

use crate::forms::Form;

/// A rule of names and types. Of several that are broken at one token the first counts.
#[derive(Clone, Copy, Debug, PartialEq, Eq)]
pub enum ProgramRule {
    /// A name is declared twice, or hides another; a header is emitted twice.
    NameTwice,
    /// A name stands for nothing.
    NoSuchName,
    /// A number has another width than its place wants.
    WidthDiffers,
    /// A value, a type or an argument is of another kind than its place wants.
    KindDiffers,
    /// What can't be written is assigned.
    NotWritable,
    /// A statement or an expression stands where it may not.
    WrongPlace,
    /// A parser's state can reach itself.
    ParserCycle,
    /// A width, a size or a number is out of its bounds.
    BadSize,
    /// The parts of the program are not those of the architecture.
    BadMain,
    /// A table's keys are matched in a way that there is not, or in ways that don't go together.
    KeyKinds,
    /// The program has more headers, digests or cells than a switch holds.
    Limit,
}

impl ProgramRule {
    ghost use Rattle.std.specs.Prelude.{◌≡◌};
    ghost use Rattle.p4_statement_rules.specs.Ranks.{rank};

    /// The number of the rule in their order.
    pub fn rank(self) -> u8
        ensures { result ≡ rank self }
    {
        match self {
            ProgramRule::NameTwice => 0,
            ProgramRule::NoSuchName => 1,
            ProgramRule::WidthDiffers => 2,
            ProgramRule::KindDiffers => 3,
            ProgramRule::NotWritable => 4,
            ProgramRule::WrongPlace => 5,
            ProgramRule::ParserCycle => 6,
            ProgramRule::BadSize => 7,
            ProgramRule::BadMain => 8,
            ProgramRule::KeyKinds => 9,
            ProgramRule::Limit => 10,
        }
    }
}

/// Where statements stand.
#[derive(Clone, Copy, Debug, PartialEq, Eq)]
pub enum Part {
    /// A state of the parser.
    State,
    /// The control that verifies checksums.
    Verify,
    /// Ingress or egress.
    Apply,
    /// An action of ingress or egress.
    Action,
    /// The control that computes checksums.
    Compute,
    Deparser,
    /// A control that is none of the program's parts, or an action of one that declares none.
    Other,
}

impl Part {
    ghost use Rattle.std.specs.Prelude.{◌≡◌};
    ghost use Rattle.p4_statement_rules.specs.Forms.{has_calls_alone, takes_any, takes_assignments, takes_effects, takes_runs, takes_sums, takes_call};
    ghost use Rattle.p4_statement_rules.specs.View.{form_view};

    /// Whether the part has its one call alone.
    pub fn has_calls_alone(self) -> bool
        ensures { result ≡ has_calls_alone self }
    {
        matches!(self, Part::Verify | Part::Compute | Part::Deparser)
    }

    /// Whether declarations, blocks and `if` stand there.
    pub fn takes_any(self) -> bool
        ensures { result ≡ takes_any self }
    {
        matches!(self, Part::Apply | Part::Action | Part::Other)
    }

    /// Whether assignments stand there.
    pub fn takes_assignments(self) -> bool
        ensures { result ≡ takes_assignments self }
    {
        self == Part::State || self.takes_any()
    }

    /// Whether there is what ingress and egress and their actions alone have.
    pub fn takes_effects(self) -> bool
        ensures { result ≡ takes_effects self }
    {
        matches!(self, Part::Apply | Part::Action)
    }

    /// Whether tables are applied and actions called there.
    pub fn takes_runs(self) -> bool
        ensures { result ≡ takes_runs self }
    {
        self == Part::Apply
    }

    fn takes_sums(self, verifies: bool) -> bool
        ensures { result ≡ takes_sums self verifies }
    {
        match self {
            Part::Verify => verifies,
            Part::Compute => !verifies,
            _ => false,
        }
    }

    /// Whether a call of this form stands there.
    pub fn takes_call(self, form: &Form) -> bool
        ensures { result ≡ takes_call self (form_view form.now) }
    {
        match form {
            Form::Unknown | Form::Ill | Form::MakesValid => self.takes_any(),
            Form::Drops | Form::Digests => self.takes_effects(),
            Form::ReadsCell(_) | Form::WritesCell(_) => self.takes_effects(),
            Form::Applies | Form::Acts(_) => self.takes_runs(),
            Form::Sums(verifies) => self.takes_sums(*verifies),
            Form::Extracts => self == Part::State,
            Form::Emits => self == Part::Deparser,
        }
    }
}
