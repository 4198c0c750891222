// A lowering, as the linker takes it.
ghost use Rattle.std.specs.Prelude.{ℕ, List};
ghost use Rattle.bit_values.specs.Bits.{Word};
ghost use Rattle.p4_meaning.specs.Pass.{Kept};
ghost use Rattle.monitor_laws.specs.Monitor.{Monitor};
ghost use Rattle.monitor_laws.specs.MonitorLaws.{MonitorLaws};

/// What a lowering is given, what it gives, and the relations in which it says what stands for what. It
/// has no code.
pub trait LoweredMonitor {
    /// What is lowered.
    ghost Given: { Type 0 };

    /// What the lowering asks of it.
    ghost IsGiven: { Given → Type 0 };

    /// A packet's tele values, a switch's sensors, and the contents of a control variable.
    ghost Tele: { Type 0 };

    ghost Sensors: { Type 0 };

    ghost Contents: { Type 0 };

    /// What the lowering gives.
    ghost monitor: { Given → Monitor Tele Sensors Contents };

    /// The tele values that can come back from their bytes.
    ghost IsFitTele: { Given → Tele → Type 0 };

    /// The words that header variables can read: such as fields of the declared widths hold.
    ghost IsFitView: { Given → List Word → Type 0 };

    /// What a switch keeps stands for sensors and control contents.
    ghost Keeps: { Given → Sensors → (ℕ → Contents) → Kept → Type 0 };

    /// The numbers that name a control variable.
    ghost IsVariable: { Given → ℕ → Type 0 };

    /// The contents that a control variable may have: of its kind, with words of its widths.
    ghost IsFitContents: { Given → (variable : ℕ) → Contents → Type 0 };
}

/// A lowering that keeps the laws. It has no code.
pub trait LinkedMonitor: LoweredMonitor {
    ghost laws: { (g : Self.Given) → Self.IsGiven g →
        MonitorLaws (Self.monitor g) (Self.IsFitTele g) (Self.Keeps g) (Self.IsFitView g) (Self.IsVariable g) (Self.IsFitContents g) };
}
