ghost use Rattle.read_contents.specs.Laws.{ContentsFit, FilesFit, SchedulesFit};

/// Contents that are read for a control variable fit it, and so does what it holds until it is set.
pub fn contents_fit()
    ensures { ContentsFit }
{}

/// So do those of all control variables at each switch, also without a file.
pub fn files_fit()
    ensures { FilesFit }
{}

/// The events of a schedule speak of packets and switches that are there, and set what fits.
pub fn schedules_fit()
    ensures { SchedulesFit }
{}
