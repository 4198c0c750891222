// The law on networks whose machines do the same, for any machines.
ghost use Rattle.std.specs.Prelude.{ℕ};
ghost use Rattle.network_run.specs.Machine.{Machine};
ghost use Rattle.network_run.specs.Network.{Wiring, IsWiring};
ghost use Rattle.network_run.specs.PathMeaning.{Property};
ghost use Rattle.linkage.specs.Linkage.{Telemetry, RegisterReading, Linkage};
ghost use Rattle.linkage.specs.Moves.{MovesTo, SameRuns};

/// Forwarding machines and linked ones, and beside each of both a machine that does the same at the
/// switches of the network, on what is kept and queued there. It has no code.
pub trait MovedNetwork {
    /// What the machines are made from. All members but the types depend on it.
    ghost Given: { Type 0 };

    /// What is asked of it.
    ghost IsGiven: { Given → Type 0 };

    /// The forwarding entries of a switch, as the first machines take them and as the others do.
    ghost Entries: { Type 0 };

    ghost OtherEntries: { Type 0 };

    /// The contents of a control variable.
    ghost Contents: { Type 0 };

    /// What a switch keeps in the forwarding network, and a packet that is queued there.
    ghost Switch: { Type 0 };

    ghost Queued: { Type 0 };

    /// The same in the linked network.
    ghost LinkedSwitch: { Type 0 };

    ghost LinkedQueued: { Type 0 };

    /// A packet's tele values, and a switch's sensors.
    ghost Tele: { Type 0 };

    ghost Sensors: { Type 0 };

    /// The name of a register.
    ghost Register: { Type 0 };

    /// The forwarding machine and the linked one.
    ghost forwarding: { Given → Machine Entries Switch Queued Contents };

    ghost linked: { Given → Machine Entries LinkedSwitch LinkedQueued Contents };

    /// The machines beside them.
    ghost other: { Given → Machine OtherEntries Switch Queued Contents };

    ghost other_linked: { Given → Machine OtherEntries LinkedSwitch LinkedQueued Contents };

    /// The entries that the first machines take where the others take these.
    ghost entries: { Given → (switch : ℕ) → OtherEntries → Entries };

    /// The network.
    ghost wiring: { Given → Wiring };

    /// The property.
    ghost property: { Given → Property Tele Sensors Contents };

    /// The bytes that carry tele values.
    ghost telemetry: { Given → Telemetry Tele };

    /// How registers are read.
    ghost registers: { Given → RegisterReading Switch LinkedSwitch Sensors Register };

    /// The forwarding entries that a switch may have, for the first machines and for the others.
    ghost IsFitEntries: { Given → (switch : ℕ) → Entries → Type 0 };

    ghost IsFitOther: { Given → (switch : ℕ) → OtherEntries → Type 0 };

    /// The numbers that name a control variable of the property.
    ghost IsVariable: { Given → ℕ → Type 0 };

    /// The contents that a control variable may have at a switch.
    ghost IsFitContents: { Given → (switch variable : ℕ) → Contents → Type 0 };

    /// What a switch keeps in the forwarding network, and what it queues.
    ghost IsKept: { Given → (switch : ℕ) → Switch → Type 0 };

    ghost IsQueued: { Given → (switch : ℕ) → Queued → Type 0 };

    /// The same in the linked network.
    ghost IsLinkedKept: { Given → (switch : ℕ) → LinkedSwitch → Type 0 };

    ghost IsLinkedQueued: { Given → (switch : ℕ) → LinkedQueued → Type 0 };
}

/// Machines that are shown to do the same. It has no code.
pub trait MovedHalves: MovedNetwork {
    /// The links join ports of switches of the network.
    ghost is_wiring: { (g : Self.Given) → Self.IsGiven g → IsWiring (Self.wiring g) };

    /// Entries that fit give entries that fit.
    ghost fits: { (g : Self.Given) → Self.IsGiven g → (s : ℕ) (e : Self.OtherEntries) →
        Self.IsFitOther g s e → Self.IsFitEntries g s (Self.entries g s e) };

    /// Both do what the first ones do.
    ghost moves: { (g : Self.Given) → Self.IsGiven g →
        MovesTo
        (Self.wiring g) (Self.entries g) (Self.forwarding g) (Self.other g) (Self.IsKept g)
        (Self.IsQueued g) (Self.IsFitOther g) (Self.IsVariable g) (Self.IsFitContents g) };

    ghost linked_moves: { (g : Self.Given) → Self.IsGiven g →
        MovesTo
        (Self.wiring g) (Self.entries g) (Self.linked g) (Self.other_linked g)
        (Self.IsLinkedKept g) (Self.IsLinkedQueued g) (Self.IsFitOther g) (Self.IsVariable g)
        (Self.IsFitContents g) };
}

/// Machines that do the same at the switches of a network have the same runs, in every valid world and
/// after every number of steps, but for what is kept at numbers that are no switch's. So where the first
/// are a linkage, the others are one.
pub fn moved_networks_are_a_linkage<M: MovedHalves>()
    ensures runs { (g : M.Given) → M.IsGiven g →
        SameRuns
        (M.wiring g) (M.entries g) (M.forwarding g) (M.other g) (M.IsKept g) (M.IsQueued g)
        (M.IsFitOther g) (M.IsVariable g) (M.IsFitContents g) }
    ensures linkage { (g : M.Given) → M.IsGiven g →
        Linkage
        (M.forwarding g) (M.linked g) (M.wiring g) (M.property g) (M.telemetry g) (M.registers g)
        (M.IsFitEntries g) (M.IsVariable g) (M.IsFitContents g) →
        Linkage
        (M.other g) (M.other_linked g) (M.wiring g) (M.property g) (M.telemetry g) (M.registers g)
        (M.IsFitOther g) (M.IsVariable g) (M.IsFitContents g) }
{}
