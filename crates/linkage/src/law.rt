// The law over every schedule, for any machines.
ghost use Rattle.std.specs.Prelude.{ℕ, List, Bool};
ghost use Rattle.network_run.specs.Machine.{Machine};
ghost use Rattle.network_run.specs.Network.{Wiring, IsWiring};
ghost use Rattle.network_run.specs.PathMeaning.{Property};
ghost use Rattle.linkage.specs.Linkage.{Telemetry, RegisterReading, Linkage, SameEdges, NeverRejects};
ghost use Rattle.linkage.specs.HalvesLaws.{HalvesLaws};

/// What is given to a linker, which is to say a forwarding program, a property and a network, or what
/// these are made from; the programs that are said to be linked from them; and the relations in
/// which the linker says what stands for what. It has no code.
pub trait LinkedNetwork {
    /// What a linker is given. All members but the types depend on it.
    ghost Given: { Type 0 };

    /// What the linker asks of what it is given.
    ghost IsGiven: { Given → Type 0 };

    /// The forwarding entries of a switch.
    ghost Entries: { Type 0 };

    /// The contents of a control variable.
    ghost Contents: { Type 0 };

    /// What a switch keeps in the forwarding network, and a packet that is queued there.
    ghost Switch: { Type 0 };

    ghost Queued: { Type 0 };

    /// The same in the linked network.
    ghost LinkedSwitch: { Type 0 };

    ghost LinkedQueued: { Type 0 };

    /// A packet's tele values, and a switch's sensors.
    ghost Tele: { Type 0 };

    ghost Sensors: { Type 0 };

    /// The name of a register.
    ghost Register: { Type 0 };

    /// The forwarding program at each switch.
    ghost forwarding: { Given → Machine Entries Switch Queued Contents };

    /// The linked programs.
    ghost linked: { Given → Machine Entries LinkedSwitch LinkedQueued Contents };

    /// The network.
    ghost wiring: { Given → Wiring };

    /// The property.
    ghost property: { Given → Property Tele Sensors Contents };

    /// The bytes that carry tele values.
    ghost telemetry: { Given → Telemetry Tele };

    /// How registers are read.
    ghost registers: { Given → RegisterReading Switch LinkedSwitch Sensors Register };

    /// The forwarding entries that a switch may have.
    ghost IsFitEntries: { Given → (switch : ℕ) → Entries → Type 0 };

    /// The numbers that name a control variable of the property.
    ghost IsVariable: { Given → ℕ → Type 0 };

    /// The contents that a control variable may have at a switch.
    ghost IsFitContents: { Given → (switch variable : ℕ) → Contents → Type 0 };

    /// What a linked switch keeps stands for what the forwarding switch keeps, for the sensors, the
    /// control contents and the number of rejected packets.
    ghost Kept: { Given → (switch : ℕ) → Switch → Sensors → (ℕ → Contents) → (rejected : ℕ) → LinkedSwitch → Type 0 };

    /// A queued packet of the linked network stands for one of the forwarding network and for tele
    /// values.
    ghost Held: { Given → (switch : ℕ) → (first : Bool) → Queued → Tele → LinkedQueued → Type 0 };

    /// The tele values that can come back from their bytes.
    ghost IsFitTele: { Given → Tele → Type 0 };
}

/// A linker that shows that the halves of what it links keep the laws. It has no code.
pub trait LinkedHalves: LinkedNetwork {
    /// The links join ports of switches of the network.
    ghost is_wiring: { (g : Self.Given) → Self.IsGiven g → IsWiring (Self.wiring g) };

    /// The laws of the two halves.
    ghost laws: { (g : Self.Given) → Self.IsGiven g →
        HalvesLaws
        (Self.wiring g) (Self.property g) (Self.telemetry g) (Self.Kept g) (Self.Held g)
        (Self.IsFitTele g) (Self.forwarding g) (Self.linked g) (Self.registers g)
        (Self.IsFitEntries g) (Self.IsVariable g) (Self.IsFitContents g) };
}

/// Where the laws of the two halves hold, the linked programs are a linkage, whatever the linker is
/// given that is as it asks, and on any wiring whose links join ports of its switches: in every valid
/// world, over every list of entry halves, exit halves and updates and the closing phase, after every
/// number of steps.
pub fn over_every_schedule<L: LinkedHalves>()
    ensures { (g : L.Given) → L.IsGiven g →
        Linkage
        (L.forwarding g) (L.linked g) (L.wiring g) (L.property g) (L.telemetry g) (L.registers g)
        (L.IsFitEntries g) (L.IsVariable g) (L.IsFitContents g) }
{}

/// A property that never rejects leaves every edge frame as it was, where the linked programs are a
/// linkage.
pub fn edges_stay_where_nothing_is_rejected<L: LinkedNetwork>()
    ensures { (g : L.Given) →
        Linkage
        (L.forwarding g) (L.linked g) (L.wiring g) (L.property g) (L.telemetry g) (L.registers g)
        (L.IsFitEntries g) (L.IsVariable g) (L.IsFitContents g) →
        NeverRejects (L.property g) →
        SameEdges
        (L.forwarding g) (L.linked g) (L.wiring g) (L.property g) (L.telemetry g) (L.registers g)
        (L.IsFitEntries g) (L.IsVariable g) (L.IsFitContents g) }
{}
