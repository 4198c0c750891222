// The laws refuse what is wrong.
ghost use Rattle.sample_monitor.specs.Wrong.{IsLawful, writes_header, writes_flag, writes_mark, reads_flag, reads_wide, swaps_values, swaps_reports, sets_one, loads_one, shows_cells, fills_one};

/// Monitors that are the sample but for one thing do not keep the laws.
pub fn wrong_monitors_break_a_law()
    // the entry part writes a field of an own header, or init reads a flag, which is not set there
    ensures header { IsLawful writes_header → ⊥ }
    ensures first { IsLawful reads_flag → ⊥ }
    // init reads a header variable of more bits than its field has
    ensures wide { IsLawful reads_wide → ⊥ }
    // the exit part writes the linker's flag, or the mark
    ensures flag { IsLawful writes_flag → ⊥ }
    ensures mark { IsLawful writes_mark → ⊥ }
    // a report's values stand the other way round, or two reports do
    ensures values { IsLawful swaps_values → ⊥ }
    ensures reports { IsLawful swaps_reports → ⊥ }
    // one of two tables is left out where the set changes, or is loaded
    ensures set { IsLawful sets_one → ⊥ }
    ensures load { IsLawful loads_one → ⊥ }
    // a register's cells are taken for the sensor's
    ensures cells { IsLawful shows_cells → ⊥ }
    // the fill is not 0 at the start
    ensures fill { IsLawful fills_one → ⊥ }
{}
