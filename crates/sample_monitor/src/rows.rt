// Worked rows: what the property says of a packet at a switch, and what the statements do there.
ghost use Rattle.std.specs.Prelude.{◌≡◌, ℕ, List, [], ◌∷◌, true, false};
ghost use Rattle.bit_values.specs.Bits.{word};
ghost use Rattle.p4_meaning.specs.Statements.{meaning_of};
ghost use Rattle.network_run.specs.PathMeaning.{nothing_yet, exit_part};
ghost use Rattle.linkage.specs.Linkage.{report_receiver};
ghost use Rattle.monitor_laws.specs.Names.{rejected_name};
ghost use Rattle.monitor_laws.specs.Telemetry.{tele_bytes};
ghost use Rattle.monitor_laws.specs.Monitor.{fields_of};
ghost use Rattle.monitor_laws.specs.MonitorLaws.{Flags, MeansTops, StandsFor};
ghost use Rattle.sample_monitor.specs.Property.{sample_property, IsFit, no_tele, pushed, byte_of};
ghost use Rattle.sample_monitor.specs.Sample.{back_path, sample, SampleKeeps};
ghost use Rattle.sample_monitor.specs.Example.{example_tele, example_cells, example_reads, example_store, example_run, example_tables, example_calls};

/// A packet at its last hop. The counter of its cell goes from 255 to 0, the list loses its oldest, and
/// a header variable that is not in the set is rejected.
pub fn a_packet_is_judged()
    ensures tele { (exit_part sample_property (example_reads 40) example_tele example_cells).tele
        ≡ record { five = word 5 19; count = word 8 2; front = word 8 9; back = word 8 2 } }
    ensures cells { (exit_part sample_property (example_reads 40) example_tele example_cells).sensors ≡ 7 ∷ 8 ∷ 9 ∷ 0 ∷ [] }
    ensures reports { (exit_part sample_property (example_reads 40) example_tele example_cells).reports
        ≡ record { number = 0; values = word 8 255 ∷ word 1 0 ∷ [] } ∷ record { number = 1; values = word 8 2 ∷ [] } ∷ [] }
    ensures known { (exit_part sample_property (example_reads 40) example_tele example_cells).rejected ≡ false }
    ensures unknown { (exit_part sample_property (example_reads 41) example_tele example_cells).rejected ≡ true }
{}

/// The statements on such a packet, whose state stands for these values.
pub fn statements_judge_it()
    ensures flags { Flags false true (example_store 41) }
    ensures tops { MeansTops sample IsFit SampleKeeps example_tables example_calls }
    ensures stands { StandsFor sample IsFit SampleKeeps (fields_of sample.exit_locals) example_tables (example_run 41) (example_reads 41) example_tele example_cells }
    ensures told { (meaning_of example_calls (sample.exit 258) (example_run 41)).0.digests
        ≡ record { receiver = report_receiver; values = word 16 0 ∷ word 8 255 ∷ word 1 0 ∷ [] }
        ∷ record { receiver = report_receiver; values = word 16 1 ∷ word 8 2 ∷ [] } ∷ [] }
    ensures pushed { (meaning_of example_calls (sample.exit 258) (example_run 41)).0.store.values back_path ≡ word 8 2 }
    ensures known { (meaning_of example_calls (sample.exit 258) (example_run 40)).0.store.values (rejected_name ∷ []) ≡ word 1 0 }
    ensures unknown { (meaning_of example_calls (sample.exit 258) (example_run 41)).0.store.values (rejected_name ∷ []) ≡ word 1 1 }
{}

/// The telemetry's bytes: the mark, five bits with three of fill, and the list. So it is before init too,
/// which takes 40 modulo 32.
pub fn telemetry_is_bytes()
    ensures some { tele_bytes 72 (sample.words example_tele) ≡ 72 ∷ 152 ∷ 2 ∷ 5 ∷ 9 ∷ [] }
    ensures none { tele_bytes 72 (sample.words no_tele) ≡ 72 ∷ 0 ∷ 0 ∷ 0 ∷ 0 ∷ [] }
    ensures init { tele_bytes 72 (sample.words (sample_property.init (example_reads 40) (nothing_yet no_tele example_cells)).tele) ≡ 72 ∷ 64 ∷ 0 ∷ 0 ∷ 0 ∷ [] }
    ensures first { tele_bytes 72 (sample.words (pushed (byte_of 258) no_tele)) ≡ 72 ∷ 0 ∷ 1 ∷ 2 ∷ 0 ∷ [] }
{}
