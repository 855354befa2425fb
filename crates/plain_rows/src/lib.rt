//! Rows of states that arrive at a site in one step, so that a history can be told shorter: definitions, and what such a row
//! keeps. The program calls none of it: each function here is empty, and its contracts are laws, with wrong rows that break
//! them, and worked rows. `docs/MODEL.md` says them in plain words.
#![tactic(auto)]

ghost use Rattle.plain_rows.specs.Rows.{with_row, fits_row};
ghost use Rattle.plain_rows.specs.Laws.{RowsKeepSound, RowsKeepClosed, RowsLeavePromises, RowsJoin, JoinedRowsFit, RowsOfOthersFit, RowsFitAtFirst};
ghost use Rattle.plain_rows.specs.Laws.{RowsTakeThePlace, EmptyRowsMoveFloors, RowsRaiseCounts, RowsChangeNoMore, RowsLeaveRest};
ghost use Rattle.plain_rows.specs.WrongRows.{IsBroken, leaves_floors, collects_the_last, keeps_the_old_last, forgets_promises, forgets_sessions};
ghost use Rattle.plain_rows.specs.WrongRows.{forgets_places, forgets_bits, takes_one, lets_none_in};
ghost use Rattle.plain_rows.specs.Worked.{TwoRowsArrive, BothRowsFit, OtherRowsDont, MostStatesFit, EmptyRowMovesFloors};

/// A sound site to which a row arrives that may is sound again: its history is one, within the site's limits, and what is
/// collected is closed and absorbed. What was closed is closed, and no promise is taken back by it, for none was made.
pub fn rows_keep_a_site_sound()
    ensures sound { RowsKeepSound with_row fits_row }
    ensures closed { RowsKeepClosed with_row fits_row }
    ensures promises { RowsLeavePromises with_row fits_row }
    ensures left_floors_break { IsBroken (RowsKeepSound leaves_floors fits_row) }
    ensures collected_last_breaks { IsBroken (RowsKeepSound collects_the_last fits_row) }
    ensures forgotten_promises_break { IsBroken (RowsLeavePromises with_row forgets_promises) }
    ensures forgotten_sessions_break { IsBroken (RowsKeepSound with_row forgets_sessions) }
    ensures forgotten_places_break { IsBroken (RowsKeepClosed with_row forgets_places) }
    ensures forgotten_bits_break { IsBroken (RowsKeepSound with_row forgets_bits) }
{}

/// Two rows of one site, one after the other, are one row, which may arrive exactly where they may. A row of another site may
/// arrive as if the first hadn't, and at a site that opens each may whose numbers have 32 bits.
pub fn rows_of_one_site_join()
    ensures joined { RowsJoin with_row }
    ensures fit { JoinedRowsFit with_row fits_row }
    ensures others_fit { RowsOfOthersFit with_row fits_row }
    ensures at_first { RowsFitAtFirst fits_row }
    ensures none_let_in_breaks { IsBroken (RowsFitAtFirst lets_none_in) }
{}

/// The last state of a row takes the place of the one that had arrived last: each key reads there as it did there, and it has
/// that one's fork path. All else reads as before and is kept as before. By a row of no states the floors move alone. The states
/// of the site are so many more, and nothing changes but history, collected states and floors.
pub fn the_last_of_a_row_takes_the_place()
    ensures place { RowsTakeThePlace with_row fits_row }
    ensures empty { EmptyRowsMoveFloors with_row }
    ensures counts { RowsRaiseCounts with_row }
    ensures no_more { RowsChangeNoMore with_row }
    ensures rest { RowsLeaveRest with_row }
    ensures one_taken_breaks { IsBroken (RowsRaiseCounts takes_one) }
    ensures kept_last_breaks { IsBroken (RowsTakeThePlace keeps_the_old_last fits_row) }
{}

/// Worked rows at a site of three that opens: a row of two, and then one of one; rows that may not arrive; and rows of no states.
pub fn rows_arrive_as_told()
    ensures two_rows { TwoRowsArrive }
    ensures both_fit { BothRowsFit }
    ensures others { OtherRowsDont }
    ensures most { MostStatesFit }
    ensures empty { EmptyRowMovesFloors }
{}
