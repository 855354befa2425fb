//! What a site forgets when it ends, and what it doesn't. The program calls none of it: each function here is empty, and its
//! contracts are laws, and beside them stand wrong steps, wrong ways to keep what lasts and wrong ways to start again that break
//! them. `docs/MODEL.md` says each law in plain words.
#![tactic(auto)]

ghost use Rattle.plain_site.specs.Rest.{at_rest};
ghost use Rattle.plain_site.specs.Step.{step};
ghost use Rattle.plain_site.specs.WrongSteps.{IsBrokenBy, forgets_collected, forgets_settled};
ghost use Rattle.rest_laws.specs.Laws.{RequestsAddWhatLasts, OthersAddNothing, NothingLastsOfOthers, WhatLastsIsSeen};
ghost use Rattle.rest_laws.specs.Laws.{RestIsSound, RestIsRest, SiteIsShownAsBefore, StatIsAsBefore, ReadsAreAsBefore};
ghost use Rattle.rest_laws.specs.Trails.{lasting_of_answers, TrailsAreReplayed, OpeningsAreReplayed, AnswersAreReplayed, IsKeptAsSeen, KeptFrontsAreOfFronts};
ghost use Rattle.rest_laws.specs.FitLaws.{KeptFits, WhatFitsKeepsSound, WhatLastsFits};
ghost use Rattle.rest_laws.specs.LimitLaws.{LargerLimitsTakeBack, LargerLimitsKeepSound, SmallerLimitsMayRefuse};
ghost use Rattle.rest_laws.specs.Lives.{CommitsOutliveTheSite, CommitsStayTold, LivesAreOneRun};
ghost use Rattle.rest_laws.specs.SpellingLaws.{LastingHasOneSpelling, AllHaveOneSpelling, LastingIsShort, WhatLastsIsSpelled};
ghost use Rattle.rest_laws.specs.WrongSteps.{IsBrokenAt, keeps_sessions, keeps_txns, loses_newest, raises_at_rest};
ghost use Rattle.rest_laws.specs.WrongSteps.{IsBrokenByKeeping, keeps_closed, keeps_twice, keeps_undone, makes_up, raises_past_end, raises_unseen, tells_floors};

use client_laws::nothing_committed_is_lost;
use wire_item::spellings_have_their_lengths;
use wire_talk::talk_has_one_spelling;

/// What lasts of a request, which is one thing at most, is all that it changes of the site at rest: so whoever keeps what lasts
/// keeps all that a site needs to start again. A request of which nothing lasts leaves the site at rest as it was; of all but
/// commits, deliveries, Settle, raised floors and Tidy nothing ever does. And what lasts of a request to a sound site is found
/// by looking at the site before and behind it, so that nobody has to carry it out of the step.
pub fn requests_add_what_lasts()
    ensures adds { RequestsAddWhatLasts step }
    ensures nothing { OthersAddNothing step }
    ensures others { NothingLastsOfOthers step }
    ensures seen { WhatLastsIsSeen step }
    ensures told_breaks { IsBrokenBy RequestsAddWhatLasts tells_floors }
    ensures unseen_breaks { IsBrokenBy OthersAddNothing raises_unseen }
    ensures unseen_breaks_others { IsBrokenBy NothingLastsOfOthers raises_unseen }
    ensures unseen_breaks_sight { IsBrokenBy WhatLastsIsSeen raises_unseen }
{}

/// What lasts of a whole trail, replayed one after another, leads from the site at rest to the site at rest after the trail,
/// however the trail was answered; so from a site that opens. And where all that lasted of what was told is kept, and of the
/// rest a front, what is kept leads to the site at rest after a front of the trail that has all that was told. What is to be
/// kept of each answer is had by looking at the site before and behind it.
pub fn trails_are_replayed()
    ensures trails { TrailsAreReplayed step }
    ensures openings { OpeningsAreReplayed step }
    ensures answers { AnswersAreReplayed lasting_of_answers }
    ensures fronts { KeptFrontsAreOfFronts lasting_of_answers }
    ensures seen { IsKeptAsSeen lasting_of_answers }
    ensures told_breaks { IsBrokenBy TrailsAreReplayed tells_floors }
    ensures told_breaks_openings { IsBrokenBy OpeningsAreReplayed tells_floors }
    ensures undone_breaks { IsBrokenByKeeping AnswersAreReplayed keeps_undone }
    ensures twice_breaks { IsBrokenByKeeping AnswersAreReplayed keeps_twice }
    ensures made_up_breaks { IsBrokenByKeeping KeptFrontsAreOfFronts makes_up }
    ensures undone_breaks_sight { IsBrokenByKeeping IsKeptAsSeen keeps_undone }
{
    talk_has_one_spelling();
}

/// A sound site is sound at rest, and at rest it is at rest. To all who ask it is as it was: which states are known and kept,
/// their children and fork paths, the leaves, the floors and the news are told as before; only no session is open. And at each
/// state that a session under the own floor may read, a session that opens then is shown each key as it was read there.
pub fn a_site_at_rest_is_as_before()
    ensures sound { RestIsSound at_rest }
    ensures once { RestIsRest at_rest }
    ensures shown { SiteIsShownAsBefore step at_rest }
    ensures stat { StatIsAsBefore step at_rest }
    ensures reads { ReadsAreAsBefore step at_rest }
    ensures txns_break { IsBrokenAt RestIsSound keeps_txns }
    ensures raised_breaks { IsBrokenAt RestIsRest raises_at_rest }
    ensures lost_breaks { IsBrokenAt (SiteIsShownAsBefore step) loses_newest }
    ensures sessions_break { IsBrokenAt (StatIsAsBefore step) keeps_sessions }
    ensures lost_breaks_reads { IsBrokenAt (ReadsAreAsBefore step) loses_newest }
{}

/// What lasts has one spelling, and so have several that stand one behind another: they are read one by one. What lasts of a
/// request to a sound site can be spelled, and its spelling has at most 270,649 bytes.
pub fn what_lasts_has_one_spelling()
    ensures one { LastingHasOneSpelling }
    ensures all { AllHaveOneSpelling }
    ensures short { LastingIsShort }
    ensures spelled { WhatLastsIsSpelled step }
    ensures past_end_breaks { IsBrokenBy WhatLastsIsSpelled raises_past_end }
{
    spellings_have_their_lengths();
}

/// What lasted may be taken back: what is kept of any trail of a sound site, and each front of it, passes the test of `fits`, one
/// behind another. And whatever bytes hold, be they of a trail or not: what passes leads to a sound site.
pub fn what_lasted_may_be_taken_back()
    ensures fits { WhatLastsFits step }
    ensures kept { KeptFits lasting_of_answers }
    ensures keeps { WhatFitsKeepsSound }
    ensures forgotten_breaks { IsBrokenBy WhatLastsFits forgets_settled }
    ensures twice_breaks { IsBrokenByKeeping KeptFits keeps_twice }
{
    talk_has_one_spelling();
}

/// A site that is given larger limits when it starts again loses nothing: what a sound site takes back under its limits, it takes back
/// under larger ones too, and becomes the same site but for these; and it is sound under them. Under smaller ones it may not take back
/// what it took under its own.
pub fn larger_limits_lose_nothing()
    ensures takes { LargerLimitsTakeBack }
    ensures sound { LargerLimitsKeepSound }
    ensures smaller { SmallerLimitsMayRefuse }
{}

/// Two lives of a site are one run: a site starts again as if at the end of its life each session had been closed, and as if no
/// record had ever waited but each had come when it was taken. So what is true of all runs, as what a client can rely on, is
/// true through any number of lives: each commit stands in that run as it stood, with what its actor was told before it. So no
/// commit is lost when the site ends.
pub fn lives_are_one_run()
    ensures run { LivesAreOneRun step }
    ensures commits { CommitsStayTold step }
    ensures outlives { CommitsOutliveTheSite step }
    ensures closed_breaks { IsBrokenBy LivesAreOneRun keeps_closed }
    ensures forgotten_breaks { IsBrokenBy CommitsOutliveTheSite forgets_collected }
{
    nothing_committed_is_lost();
}
