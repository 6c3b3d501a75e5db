//! What follows over the texts of schedules.

ghost use Rattle.site_schedule.specs.Spelled.{SchedulesAgain};

/// Each legal schedule of a well formed program is read from the text that has its sites' names, one a line.
pub fn spelled_schedules()
    ensures { SchedulesAgain }
{}
