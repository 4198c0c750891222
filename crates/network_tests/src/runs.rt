// Worked rows: what the definitions give on small networks. Each is proved by computation.
ghost use Rattle.std.specs.Prelude.{◌≡◌, ℕ, ◌<◌, ◌≤◌, List, [], ◌∷◌, length, map, Bool, true, false, Option, Some, None};
ghost use Rattle.bit_values.specs.Bits.{word};
ghost use Rattle.network_run.specs.Events.{Enter, Leave, Set, Hop, Update, halves_of};
ghost use Rattle.network_run.specs.NetworkRun.{longest_frame};
ghost use Rattle.network_run.specs.PathMeaning.{path_meaning};
ghost use Rattle.network_run.specs.World.{net_after, first_net};
ghost use Rattle.network_tests.specs.Networks.{alone, line2, line3, ring2, world, one_packet, two_packets, framed, to_port_2, counting, watching, flagging, rejecting, ended, said, report_at};

/// One packet in a ring of two switches with a hop limit of 64 is lost after 64 passages, 32 at
/// each switch.
fn ring_loses_the_packet_at_the_hop_limit()
    ensures lost { (ended true true ring2 (one_packet [])).lost ≡ 0 ∷ [] }
    ensures at_one { (said counting ring2 (one_packet [])).sensors 0 ≡ 32 }
    ensures at_other { (said counting ring2 (one_packet [])).sensors 1 ≡ 32 }
    ensures register { (ended true true ring2 (one_packet [])).switches 1 ≡ 32 }
    ensures wires { length (ended true true ring2 (one_packet [])).wires ≡ 63 }
    ensures edges { (ended true true ring2 (one_packet [])).edges ≡ [] }
    ensures verdict { (said counting ring2 (one_packet [])).verdicts 0 ≡ None }
{}

/// Two packets over two switches, whose sensor counts the packets: without a schedule, packet 0
/// passes the second switch first.
fn reports_without_a_schedule()
    ensures { (said counting line2 (two_packets [])).reports
        ≡ report_at 0 1 (word 8 1 ∷ []) ∷ report_at 1 1 (word 8 2 ∷ []) ∷ [] }
{}

/// By the schedule 0, 1, 1 packet 1 passes it first.
fn reports_by_a_schedule()
    ensures { (said counting line2 (two_packets (halves_of (Hop 0 ∷ Hop 1 ∷ Hop 1 ∷ [])))).reports
        ≡ report_at 1 1 (word 8 1 ∷ []) ∷ report_at 0 1 (word 8 2 ∷ []) ∷ [] }
{}

/// By the schedule 1, 0 packet 1 passes the first switch first, and the closing phase begins with
/// packet 0.
fn frames_with_one_before_zero()
    ensures reports { (said counting line2 (two_packets (halves_of (Hop 1 ∷ Hop 0 ∷ [])))).reports
        ≡ report_at 0 1 (word 8 1 ∷ []) ∷ report_at 1 1 (word 8 2 ∷ []) ∷ [] }
    ensures wires { map (λ x. x.sent.packet)
        (ended true true line2 (two_packets (halves_of (Hop 1 ∷ Hop 0 ∷ [])))).wires
        ≡ 1 ∷ 0 ∷ [] }
    ensures edges { map (λ x. x.packet)
        (ended true true line2 (two_packets (halves_of (Hop 1 ∷ Hop 0 ∷ [])))).edges
        ≡ 0 ∷ 1 ∷ [] }
    // At the first switch 1 enters and leaves, and then 0; at the second 0, and then 1.
    ensures trail { (said counting line2 (two_packets (halves_of (Hop 1 ∷ Hop 0 ∷ [])))).trail
        ≡ 0 ∷ 1 ∷ 0 ∷ 2 ∷ 2 ∷ 1 ∷ 1 ∷ 2 ∷ [] }
{}

/// An exit half of a packet in flight changes nothing, nor does a second entry half or an event
/// after the end.
fn second_halves_change_nothing()
    ensures leave { net_after to_port_2 alone 0 (one_packet (Leave 0 ∷ [])) 1
        ≡ first_net to_port_2 (one_packet []) }
    ensures enter { net_after to_port_2 alone 0 (one_packet (Enter 0 ∷ Enter 0 ∷ [])) 2
        ≡ net_after to_port_2 alone 0 (one_packet (Enter 0 ∷ [])) 1 }
    ensures over { net_after to_port_2 alone 0 (one_packet (Enter 0 ∷ Leave 0 ∷ Enter 0 ∷ [])) 3
        ≡ net_after to_port_2 alone 0 (one_packet (Enter 0 ∷ Leave 0 ∷ [])) 2 }
    ensures queued { (net_after to_port_2 alone 0 (one_packet (Enter 0 ∷ [])) 1).switches 0 ≡ 1 }
{}

/// New contents that are set between a packet's entry half and its exit half are seen by the exit
/// half alone, and only at that switch.
fn contents_set_between_the_halves()
    ensures seen { (said watching alone (one_packet (Enter 0 ∷ Set 0 0 7 ∷ Leave 0 ∷ []))).reports
        ≡ report_at 0 0 (word 8 5 ∷ word 8 7 ∷ []) ∷ [] }
    ensures elsewhere { (said watching alone (one_packet (Enter 0 ∷ Set 1 0 7 ∷ Leave 0 ∷ []))).reports
        ≡ report_at 0 0 (word 8 5 ∷ word 8 5 ∷ []) ∷ [] }
    ensures before { (said watching alone (one_packet (halves_of (Update 0 0 7 ∷ Hop 0 ∷ [])))).reports
        ≡ report_at 0 0 (word 8 7 ∷ word 8 7 ∷ []) ∷ [] }
{}

/// The first hop begins at an edge port, the last one ends at one, and one passage may be both.
fn first_and_last_hops()
    ensures three { (said flagging line3 (one_packet [])).tele 0
        ≡ (true, false) ∷ (false, false) ∷ (false, true) ∷ [] }
    ensures one { (said flagging alone (one_packet [])).tele 0 ≡ (true, true) ∷ [] }
{}

/// Init runs at the first hop alone, telemetry at each, and the checker at the last; a rejected
/// packet's report is reported, and the packet is counted at that switch.
fn parts_at_three_hops()
    ensures reports { (said rejecting line3 (one_packet [])).reports ≡ report_at 0 2 (word 8 103 ∷ []) ∷ [] }
    ensures sensors { map (said rejecting line3 (one_packet [])).sensors (0 ∷ 1 ∷ 2 ∷ []) ≡ 11 ∷ 10 ∷ 10 ∷ [] }
    ensures verdict { (said rejecting line3 (one_packet [])).verdicts 0 ≡ Some true }
    ensures counts { map (said rejecting line3 (one_packet [])).rejected_at (0 ∷ 1 ∷ 2 ∷ []) ≡ 0 ∷ 0 ∷ 1 ∷ [] }
{}

/// Where the ingress drops the packet, init has run, and what it wrote to a sensor stays; no other
/// block runs.
fn parts_of_a_packet_dropped_in_ingress()
    ensures dropped { (ended false true alone (one_packet [])).dropped ≡ 0 ∷ [] }
    ensures sensors { (path_meaning rejecting (ended false true alone (one_packet [])).log).sensors 0 ≡ 1 }
    ensures reports { (path_meaning rejecting (ended false true alone (one_packet [])).log).reports ≡ [] }
    ensures verdict { (path_meaning rejecting (ended false true alone (one_packet [])).log).verdicts 0 ≡ None }
{}

/// The same where the egress drops it, although it would be at its last hop.
fn parts_of_a_packet_dropped_in_egress()
    ensures dropped { (ended true false alone (one_packet [])).dropped ≡ 0 ∷ [] }
    ensures sensors { (path_meaning rejecting (ended true false alone (one_packet [])).log).sensors 0 ≡ 1 }
    ensures reports { (path_meaning rejecting (ended true false alone (one_packet [])).log).reports ≡ [] }
    ensures verdict { (path_meaning rejecting (ended true false alone (one_packet [])).log).verdicts 0 ≡ None }
{}

/// A frame of more than 65,535 bytes at an edge port is lost, and its packet has a verdict and
/// reports.
fn frame_too_long_for_an_edge()
    ensures lost { (frame : List ℕ) →
        longest_frame < length frame → (ended true true alone (framed frame)).lost ≡ 0 ∷ [] }
    ensures edges { (frame : List ℕ) →
        longest_frame < length frame → (ended true true alone (framed frame)).edges ≡ [] }
    ensures reports { (frame : List ℕ) → (said rejecting alone (framed frame)).reports ≡ report_at 0 0 (word 8 101 ∷ []) ∷ [] }
    ensures verdict { (frame : List ℕ) → (said rejecting alone (framed frame)).verdicts 0 ≡ Some true }
{}

/// A frame that is too long for a link is lost there, and has no verdict; one that is not too long
/// goes on as it came.
fn frame_too_long_for_a_link()
    ensures lost { (frame : List ℕ) →
        longest_frame < length frame → (ended true true line2 (framed frame)).lost ≡ 0 ∷ [] }
    ensures wires { (frame : List ℕ) →
        longest_frame < length frame → (ended true true line2 (framed frame)).wires ≡ [] }
    ensures verdict { (frame : List ℕ) →
        longest_frame < length frame → (said rejecting line2 (framed frame)).verdicts 0 ≡ None }
    ensures goes { (ended true true line2 (framed (1 ∷ 2 ∷ []))).edges
        ≡ record { packet = 0; switch = 1; port = 2; frame = 1 ∷ 2 ∷ [] } ∷ [] }
{}

/// A frame of 65,535 bytes, or of fewer, leaves by an edge port and is carried on a link, as it came.
fn longest_frame_goes_on()
    ensures edge { (frame : List ℕ) →
        length frame ≤ longest_frame →
        (ended true true alone (framed frame)).edges
        ≡ record { packet = 0; switch = 0; port = 2; frame = frame } ∷ [] }
    ensures link { (frame : List ℕ) →
        length frame ≤ longest_frame →
        (ended true true line2 (framed frame)).wires
        ≡ record { half = 1; sent = record { packet = 0; switch = 0; port = 2; frame = frame } } ∷ [] }
    ensures behind_the_link { (frame : List ℕ) →
        length frame ≤ longest_frame →
        (ended true true line2 (framed frame)).edges
        ≡ record { packet = 0; switch = 1; port = 2; frame = frame } ∷ [] }
    ensures longest { longest_frame ≡ 65535 }
{}

/// The closing phase takes each packet to its end, in the order of their numbers.
fn closing_takes_each_packet()
    ensures { map (λ x. x.packet) (ended true true line3 (world 64 ([] ∷ [] ∷ [] ∷ []) [])).edges
        ≡ 0 ∷ 1 ∷ 2 ∷ [] }
{}

#[test]
fn worked_rows() {
    ring_loses_the_packet_at_the_hop_limit();
    reports_without_a_schedule();
    reports_by_a_schedule();
    frames_with_one_before_zero();
    second_halves_change_nothing();
    contents_set_between_the_halves();
    first_and_last_hops();
    parts_at_three_hops();
    parts_of_a_packet_dropped_in_ingress();
    parts_of_a_packet_dropped_in_egress();
    frame_too_long_for_an_edge();
    frame_too_long_for_a_link();
    longest_frame_goes_on();
    closing_takes_each_packet();
}
