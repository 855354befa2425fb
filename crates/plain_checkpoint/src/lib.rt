//! Checkpoints: a history told in parts, with no word of floors, which come at the end; definitions, and what all that is told
//! keeps. The program calls none of it: each function here is empty, and its contracts are laws, with wrong parts and wrong
//! tests that break them, and worked rows. `docs/MODEL.md` says them in plain words.
#![tactic(auto)]

ghost use Rattle.plain_checkpoint.specs.Checkpoints.{with_part, fits_part, fits_floors};
ghost use Rattle.plain_checkpoint.specs.Laws.{UntoldIsToldWell, PartsKeepToldWell, AllPartsKeepToldWell, ToldSitesAreSound, CheckpointsAreSound};
ghost use Rattle.plain_checkpoint.specs.Laws.{ToldSitesRest, SoundSitesAreToldWell, FloorsOfSitesFit, ArrivalsFit, CollectionsFit, LinesAreStates, LinesJoin};
ghost use Rattle.plain_checkpoint.specs.Laws.{LargerLimitsFit, LargerLimitsFitAll, FloorsGoBySites};
ghost use Rattle.plain_checkpoint.specs.WrongCheckpoints.{IsBroken, collects_the_last, keeps_the_old_last, takes_one, lets_none_in, forgets_kept};
ghost use Rattle.plain_checkpoint.specs.WrongCheckpoints.{forgets_apart, forgets_children, forgets_conflicts, forgets_growth, fills_up, forgets_bits};
ghost use Rattle.plain_checkpoint.specs.WrongCheckpoints.{forgets_sites, forgets_absorbed, forgets_gone, lets_no_floors_in, counts_states};
ghost use Rattle.plain_checkpoint.specs.WrongCheckpoints.{forgets_closed, forgets_some_floors};
ghost use Rattle.plain_checkpoint.specs.Worked.{ForkIsTold, ForkFits, RowsDontTellIt, StatesThatDontFit, LinesThatDontFit, StatesThatStay};
ghost use Rattle.plain_checkpoint.specs.Worked.{StatesPastLimits, GoneChildrenCount, FloorsThatDontFit, StatedTooMany};

/// What is told by parts that fit is a history within the site's limits, in which each collected state is known and absorbed,
/// and was collected once. No floor is asked for.
pub fn parts_keep_what_is_told()
    ensures untold { UntoldIsToldWell }
    ensures part { PartsKeepToldWell with_part fits_part }
    ensures parts { AllPartsKeepToldWell }
    ensures collected_last_breaks { IsBroken (PartsKeepToldWell collects_the_last fits_part) }
    ensures kept_last_breaks { IsBroken (PartsKeepToldWell keeps_the_old_last fits_part) }
    ensures forgotten_kept_breaks { IsBroken (PartsKeepToldWell with_part forgets_kept) }
    ensures forgotten_apart_breaks { IsBroken (PartsKeepToldWell with_part forgets_apart) }
    ensures forgotten_children_break { IsBroken (PartsKeepToldWell with_part forgets_children) }
    ensures forgotten_conflicts_break { IsBroken (PartsKeepToldWell with_part forgets_conflicts) }
    ensures forgotten_growth_breaks { IsBroken (PartsKeepToldWell with_part forgets_growth) }
    ensures forgotten_bits_break { IsBroken (PartsKeepToldWell with_part forgets_bits) }
    ensures forgotten_sites_break { IsBroken (PartsKeepToldWell with_part forgets_sites) }
    ensures forgotten_absorbed_breaks { IsBroken (PartsKeepToldWell with_part forgets_absorbed) }
    ensures forgotten_gone_breaks { IsBroken (PartsKeepToldWell with_part forgets_gone) }
{}

/// Where the floors fit at the end, the site that is told is sound, and at rest.
pub fn checkpoints_tell_sound_sites()
    ensures site { ToldSitesAreSound fits_floors }
    ensures whole { CheckpointsAreSound }
    ensures rest { ToldSitesRest }
    ensures forgotten_closed_breaks { IsBroken (ToldSitesAreSound forgets_closed) }
    ensures forgotten_floors_break { IsBroken (ToldSitesAreSound forgets_some_floors) }
{}

/// Whatever a sound site may take back without a word of floors fits as a part: a record that arrives, and a state that is
/// collected. The floors of a sound site fit, and the site at rest is told then. A line says no more than states that arrive
/// and states that are gone: one state of it is one arrival, and lines of one site join.
pub fn what_sites_hold_can_be_told()
    ensures well { SoundSitesAreToldWell }
    ensures floors { FloorsOfSitesFit fits_floors }
    ensures arrivals { ArrivalsFit fits_part }
    ensures collections { CollectionsFit fits_part }
    ensures lines { LinesAreStates with_part }
    ensures joined { LinesJoin with_part }
    ensures no_floors_break { IsBroken (FloorsOfSitesFit lets_no_floors_in) }
    ensures no_arrivals_break { IsBroken (ArrivalsFit lets_none_in) }
    ensures no_collections_break { IsBroken (CollectionsFit lets_none_in) }
    ensures kept_last_breaks { IsBroken (LinesAreStates keeps_the_old_last) }
    ensures one_taken_breaks { IsBroken (LinesJoin takes_one) }
{}

/// What fits under some limits fits under larger ones of as many sites.
pub fn larger_limits_fit_the_same()
    ensures part { LargerLimitsFit fits_part }
    ensures parts { LargerLimitsFitAll }
    ensures floors { FloorsGoBySites fits_floors }
    ensures filling_breaks { IsBroken (LargerLimitsFit fills_up) }
    ensures counting_breaks { IsBroken (FloorsGoBySites counts_states) }
{}

/// Worked rows: a fork of two sites that grew together and is gone, which no rows of states would tell, its floors, and parts and
/// floors that don't fit.
pub fn checkpoints_tell_as_said()
    ensures fork { ForkIsTold }
    ensures fits { ForkFits }
    ensures rows { RowsDontTellIt }
    ensures states { StatesThatDontFit }
    ensures lines { LinesThatDontFit }
    ensures stay { StatesThatStay }
    ensures limits { StatesPastLimits }
    ensures children { GoneChildrenCount }
    ensures floors { FloorsThatDontFit }
    ensures stated { StatedTooMany }
{}
