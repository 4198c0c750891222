ghost use Rattle.event_room.specs.Holding.{TablesHold};
ghost use Rattle.event_room.specs.Jobs.{JobsHaveRoom};
ghost use Rattle.event_room.specs.Room.{ContentsAreTaken, ThereIsRoom};

/// At each switch the tables have room for what their variables hold after any events of a schedule.
pub fn there_is_room()
    ensures { ThereIsRoom }
{}

/// And they take it.
pub fn contents_are_taken()
    ensures { ContentsAreTaken }
{}

/// Tables hold their variables' contents where a switch is loaded, and where a variable is set.
pub fn tables_hold()
    ensures { TablesHold }
{}

/// Each event of a job can happen.
pub fn jobs_have_room()
    ensures { JobsHaveRoom }
{}
