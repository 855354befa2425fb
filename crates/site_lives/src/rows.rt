//! Worked rows. Each call does nothing.

ghost use Rattle.site_lives.specs.Rows.{MeetingsAreAnswered, LivesOutlastTheSite, RowsAreTakenBack, EmptyRowsMoveTheFloors, RecordsStandBehindRows, CheckpointsAreTakenBack};

/// What the first of two sites answers when it is to meet others.
pub fn meetings_are_answered()
    ensures { MeetingsAreAnswered }
{}

/// What lasts of that, and what it knows when it started again.
pub fn lives_outlast_the_site()
    ensures { LivesOutlastTheSite }
{}

/// A row in bytes, what a site makes of it, and where none fits.
pub fn rows_are_taken_back()
    ensures { RowsAreTakenBack }
{}

/// A row of no states, and what it lets go.
pub fn empty_rows_move_the_floors()
    ensures { EmptyRowsMoveTheFloors }
{}

/// The record of a state below the last one of a row.
pub fn records_stand_behind_rows()
    ensures { RecordsStandBehindRows }
{}

/// A checkpoint in bytes, what a site makes of it, and where no end of one fits.
pub fn checkpoints_are_taken_back()
    ensures { CheckpointsAreTakenBack }
{}
