// The small laws of the run, each on a function that does nothing.
ghost use Rattle.std.specs.Prelude.{◌≡◌, ℕ, ◌<◌, List, [], ◌∷◌, length};
ghost use Rattle.bit_values.specs.Bits.{Word};
ghost use Rattle.network_run.specs.Machine.{Machine};
ghost use Rattle.network_run.specs.Network.{Wiring, Place, Flying, Waiting, Over, Net};
ghost use Rattle.network_run.specs.Events.{Event, Enter, Leave, WholeEvent, Hop, closing};
ghost use Rattle.network_run.specs.NetworkRun.{Limits, happens, run_of_halves, run_of_hops};
ghost use Rattle.network_run.specs.PathMeaning.{Property, Path};
ghost use Rattle.network_run.specs.World.{World, net_after, net_at_end};
ghost use Rattle.network_run.specs.Hop.{DropIsHop, PassageIsHop};
ghost use Rattle.network_run.specs.RunLaws.{IsOver, NoneWaits, AllHavePassedFewer, times_ended};

/// An event of a packet in another place changes nothing: an exit half of a packet in flight, an
/// entry half of a queued packet, and both of a packet that is at its end.
pub fn other_places_change_nothing<Entries, Kept, Queued, Contents>()
    ensures flying { (m : Machine Entries Kept Queued Contents) (net : Wiring) (limits : Limits)
        (w : Net Kept Queued Contents) (i s port n : ℕ) (frame : List ℕ) →
        w.packets i ≡ Flying s port frame n → happens m net limits w (Leave i) ≡ w }
    ensures waiting { (m : Machine Entries Kept Queued Contents) (net : Wiring) (limits : Limits)
        (w : Net Kept Queued Contents) (i s port n : ℕ) (q : Queued) →
        w.packets i ≡ Waiting s port q n → happens m net limits w (Enter i) ≡ w }
    ensures over_enter { (m : Machine Entries Kept Queued Contents) (net : Wiring) (limits : Limits)
        (w : Net Kept Queued Contents) (i : ℕ) →
        w.packets i ≡ Over → happens m net limits w (Enter i) ≡ w }
    ensures over_leave { (m : Machine Entries Kept Queued Contents) (net : Wiring) (limits : Limits)
        (w : Net Kept Queued Contents) (i : ℕ) →
        w.packets i ≡ Over → happens m net limits w (Leave i) ≡ w }
{}

/// Events keep the number of switches that a packet has passed below the limit: from any such
/// network on, and in every world whose hop limit is not 0, whatever the schedule.
pub fn passed_stays_below_the_limit<Entries, Kept, Queued, Contents>()
    ensures events { (m : Machine Entries Kept Queued Contents) (net : Wiring) (limits : Limits)
        (w : Net Kept Queued Contents) (es : List (Event Contents)) →
        AllHavePassedFewer limits.hops w →
        AllHavePassedFewer limits.hops (run_of_halves m net limits w es) }
    ensures worlds { (m : Machine Entries Kept Queued Contents) (net : Wiring) (telemetry : ℕ)
        (w : World Entries Contents) (k : ℕ) →
        0 < w.hops → AllHavePassedFewer w.hops (net_after m net telemetry w k) }
{}

/// After the closing phase every packet is over: from any network whose packets have passed fewer
/// switches than the limit, and in every world whose hop limit is not 0, whatever the schedule.
pub fn closing_ends_every_packet<Entries, Kept, Queued, Contents>()
    ensures events { (m : Machine Entries Kept Queued Contents) (net : Wiring) (limits : Limits)
        (w : Net Kept Queued Contents) (count i : ℕ) →
        AllHavePassedFewer limits.hops w → i < count →
        IsOver ((run_of_halves m net limits w (closing limits.hops 0 count)).packets i) }
    ensures worlds { (m : Machine Entries Kept Queued Contents) (net : Wiring) (telemetry : ℕ)
        (w : World Entries Contents) (i : ℕ) →
        0 < w.hops → IsOver ((net_at_end m net telemetry w).packets i) }
{}

/// In every world whose hop limit is not 0 each packet ends once: it leaves by an edge port, or is
/// dropped, or is lost. So the packets are as many as the frames that left and the packets that were
/// dropped and lost.
pub fn each_packet_ends_once<Entries, Kept, Queued, Contents>()
    ensures { (m : Machine Entries Kept Queued Contents) (net : Wiring) (telemetry : ℕ)
        (w : World Entries Contents) (i : ℕ) →
        0 < w.hops → i < length w.packets → times_ended i (net_at_end m net telemetry w) ≡ 1 }
{}

/// A run over whole hops is a run over half-hops in which no packet is queued between two events,
/// so that a hop of a packet that is not in flight changes nothing.
pub fn whole_hops_are_half_hops<Entries, Kept, Queued, Contents>()
    ensures none_waits { (m : Machine Entries Kept Queued Contents) (net : Wiring) (limits : Limits)
        (w : Net Kept Queued Contents) (es : List (WholeEvent Contents)) →
        NoneWaits w → NoneWaits (run_of_hops m net limits w es) }
    ensures one_hop { (m : Machine Entries Kept Queued Contents) (net : Wiring) (limits : Limits)
        (w : Net Kept Queued Contents) (i : ℕ) →
        run_of_hops m net limits w (Hop i ∷ [])
        ≡ happens m net limits (happens m net limits w (Enter i)) (Leave i) }
    ensures over_stays { (m : Machine Entries Kept Queued Contents) (net : Wiring) (limits : Limits)
        (w : Net Kept Queued Contents) (i : ℕ) →
        w.packets i ≡ Over → run_of_hops m net limits w (Hop i ∷ []) ≡ w }
{}

/// The path meaning of the two halves of a passage, one directly behind the other in the log, is a
/// whole hop: the tele values of the packet, the sensors of the switch, the reports and the verdict.
/// So is that of the one half of a dropped packet.
pub fn a_passage_is_a_hop<Tele, Sensors, Contents>()
    ensures dropped { (p : Property Tele Sensors Contents) (net : Wiring) (w : Path Tele Sensors)
        (i s port : ℕ) (view : List Word) (c : ℕ → Contents) → DropIsHop p net w i s port view c }
    ensures passed { (p : Property Tele Sensors Contents) (net : Wiring) (w : Path Tele Sensors)
        (i s port to : ℕ) (entry exit : List Word) (before after : ℕ → Contents) →
        PassageIsHop p net w i s port to entry exit before after }
{}
