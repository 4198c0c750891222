// Worked rows: programs that are linked by hand are a linkage, and what the definitions give for
// them.
ghost use Rattle.std.specs.Prelude.{◌≡◌, ℕ, List, [], ◌∷◌, length, map, filter, Bool, true, false, Some, None};
ghost use Rattle.bit_values.specs.Bits.{word};
ghost use Rattle.network_run.specs.Network.{IsWiring};
ghost use Rattle.network_run.specs.World.{IsValid};
ghost use Rattle.network_run.specs.Events.{Enter, Leave, Set, Hop, Update, halves_of};
ghost use Rattle.network_tests.specs.Networks.{alone, line2, line3};
ghost use Rattle.linkage.specs.Linkage.{Linkage, is_report};
ghost use Rattle.network_tests.specs.Linking.{Given, forwarding, limited, two_bytes, Keeps, Parked, linked, registers, register_of, AnyEntries, IsLimit, AnyContents, with_limit, framed, plain_end, linked_end, path_end, KeptBy, HeldBy, AnyTele};
ghost use Rattle.network_tests.specs.LinkingLaws.{laws};

use linkage::{LinkedHalves, LinkedNetwork, over_every_schedule};

/// The programs that are linked by hand: on any network whose links join ports of its switches, and for
/// any initial value of the property's sensor.
struct Hand;

impl LinkedNetwork for Hand {
    ghost Given = { Given };

    ghost IsGiven = { λ g. IsWiring g.network };

    ghost Entries = { Unit {0} };

    ghost Contents = { ℕ };

    ghost Switch = { ℕ };

    ghost Queued = { List ℕ };

    ghost LinkedSwitch = { Keeps };

    ghost LinkedQueued = { Parked };

    ghost Tele = { ℕ };

    ghost Sensors = { ℕ };

    ghost Register = { ℕ };

    ghost forwarding = { λ g. forwarding };

    ghost linked = { λ g. linked g.network g.initial };

    ghost wiring = { λ g. g.network };

    ghost property = { λ g. limited g.initial };

    ghost telemetry = { λ g. two_bytes };

    ghost registers = { λ g. registers g.initial };

    ghost IsFitEntries = { λ g. AnyEntries };

    ghost IsVariable = { λ g. IsLimit };

    ghost IsFitContents = { λ g. AnyContents };

    ghost Kept = { λ g. KeptBy };

    ghost Held = { λ g. HeldBy };

    ghost IsFitTele = { λ g. AnyTele };
}

impl LinkedHalves for Hand {
    ghost is_wiring = { λ g given. given };

    ghost laws = { λ g given. laws g.network g.initial };
}

/// The programs are a linkage on every network whose links join ports of its switches, for every
/// initial value of the sensor, and there is such a network, with a valid world.
fn hand_linked_programs_are_a_linkage()
    ensures linkage { (g : Given) → IsWiring g.network →
        Linkage
        forwarding (linked g.network g.initial) g.network (limited g.initial) two_bytes
        (registers g.initial) AnyEntries IsLimit AnyContents }
    ensures network { IsWiring line3 }
    ensures world { IsValid line3 AnyEntries IsLimit AnyContents
        (with_limit 13 ((1 ∷ 2 ∷ []) ∷ []) (Enter 0 ∷ Set 2 0 9 ∷ [])) }
{
    over_every_schedule::<Hand>();
}

/// A packet that the property rejects at its last hop is dropped there. Its telemetry stood on both
/// links, and its report is told, at the switch and with the sensor's value.
fn rejected_packet()
    ensures plain { map (λ x. x.frame) (plain_end line3 (framed 13 (1 ∷ 2 ∷ []))).edges ≡ (1 ∷ 2 ∷ []) ∷ [] }
    ensures edges { (linked_end line3 (framed 13 (1 ∷ 2 ∷ []))).edges ≡ [] }
    ensures wires { map (λ x. x.sent.frame) (linked_end line3 (framed 13 (1 ∷ 2 ∷ []))).wires
        ≡ (72 ∷ 11 ∷ 1 ∷ 2 ∷ []) ∷ (72 ∷ 12 ∷ 1 ∷ 2 ∷ []) ∷ [] }
    ensures reports { filter (λ t. is_report t.digest) (linked_end line3 (framed 13 (1 ∷ 2 ∷ []))).told
        ≡ record {
          packet = 0;
          switch = 2;
          digest = record { receiver = 1213809746; values = word 16 0 ∷ word 8 13 ∷ word 8 4 ∷ [] };
        } ∷ [] }
    ensures dropped { (linked_end line3 (framed 13 (1 ∷ 2 ∷ []))).dropped ≡ 0 ∷ [] }
    ensures sensor { register_of 3 ((linked_end line3 (framed 13 (1 ∷ 2 ∷ []))).switches 2) 1 ≡ 7 ∷ [] }
    ensures rejects { register_of 3 ((linked_end line3 (framed 13 (1 ∷ 2 ∷ []))).switches 2) 2 ≡ 1 ∷ [] }
{}

/// A packet that it does not reject leaves as it came, with its report.
fn accepted_packet()
    ensures edges { map (λ x. x.frame) (linked_end line3 (framed 0 (1 ∷ 2 ∷ []))).edges ≡ (1 ∷ 2 ∷ []) ∷ [] }
    ensures reports { map (λ r. r.report.values) (path_end line3 (framed 0 (1 ∷ 2 ∷ []))).reports
        ≡ (word 8 13 ∷ word 8 4 ∷ []) ∷ [] }
    ensures one { map (λ x. x.frame) (linked_end alone (framed 0 (1 ∷ 2 ∷ []))).edges ≡ (1 ∷ 2 ∷ []) ∷ [] }
{}

/// A frame that looks like telemetry is a frame like any other.
fn frame_that_looks_like_telemetry()
    ensures { map (λ x. x.frame) (linked_end line2 (framed 0 (72 ∷ 5 ∷ 2 ∷ []))).edges
        ≡ (72 ∷ 5 ∷ 2 ∷ []) ∷ [] }
{}

/// A packet that forwarding drops in its last egress has no verdict and no report.
fn dropped_packet()
    ensures told { map (λ t. t.digest.receiver) (linked_end alone (framed 11 (0 ∷ 2 ∷ []))).told ≡ 7 ∷ [] }
    ensures dropped { (linked_end alone (framed 11 (0 ∷ 2 ∷ []))).dropped ≡ 0 ∷ [] }
    ensures rejects { register_of 3 ((linked_end alone (framed 11 (0 ∷ 2 ∷ []))).switches 0) 2 ≡ 0 ∷ [] }
    ensures verdict { (path_end alone (framed 11 (0 ∷ 2 ∷ []))).verdicts 0 ≡ None }
{}

/// On a link of the linked network a frame of 65,535 bytes is carried behind the two bytes of
/// telemetry, 65,537 bytes in all, and leaves as it came; a longer one is lost at the link.
fn longest_frame_on_a_link()
    ensures wires { (rest : List ℕ) →
        length rest ≡ 65534 →
        map (λ x. x.sent.frame) (linked_end line2 (framed 0 (1 ∷ rest))).wires
        ≡ (72 ∷ 11 ∷ 1 ∷ rest) ∷ [] }
    ensures edges { (rest : List ℕ) →
        length rest ≡ 65534 →
        map (λ x. x.frame) (linked_end line2 (framed 0 (1 ∷ rest))).edges ≡ (1 ∷ rest) ∷ [] }
    ensures lost { (rest : List ℕ) →
        length rest ≡ 65535 → (linked_end line2 (framed 0 (1 ∷ rest))).lost ≡ 0 ∷ [] }
{}

/// A packet whose frame is too long for the edge port of its last hop is lost in the forwarding
/// network. Where the property rejects it, it is dropped in the linked network and not lost, with its
/// report.
fn rejected_packet_with_a_frame_too_long()
    ensures plain { (rest : List ℕ) →
        length rest ≡ 65535 → (plain_end alone (framed 11 (1 ∷ rest))).lost ≡ 0 ∷ [] }
    ensures lost { (rest : List ℕ) →
        length rest ≡ 65535 → (linked_end alone (framed 11 (1 ∷ rest))).lost ≡ [] }
    ensures dropped { (rest : List ℕ) →
        length rest ≡ 65535 → (linked_end alone (framed 11 (1 ∷ rest))).dropped ≡ 0 ∷ [] }
    ensures report { (rest : List ℕ) →
        length rest ≡ 65535 →
        map (λ t. t.digest.values)
        (filter (λ t. is_report t.digest) (linked_end alone (framed 11 (1 ∷ rest))).told)
        ≡ (word 16 0 ∷ word 8 11 ∷ word 8 4 ∷ []) ∷ [] }
{}

/// A limit that is set between a packet's halves at its last hop decides on it.
fn limit_set_between_the_halves()
    ensures rejected { (linked_end alone
        (with_limit 0 ((1 ∷ []) ∷ []) (Enter 0 ∷ Set 0 0 11 ∷ Leave 0 ∷ []))).edges ≡ [] }
    ensures verdict { (path_end alone
        (with_limit 0 ((1 ∷ []) ∷ []) (Enter 0 ∷ Set 0 0 11 ∷ Leave 0 ∷ []))).verdicts 0
        ≡ Some true }
{}

#[test]
fn worked_rows() {
    hand_linked_programs_are_a_linkage();
    rejected_packet();
    accepted_packet();
    frame_that_looks_like_telemetry();
    dropped_packet();
    longest_frame_on_a_link();
    rejected_packet_with_a_frame_too_long();
    limit_set_between_the_halves();
}
