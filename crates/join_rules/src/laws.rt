//! Laws of the values that rules give, and of requests to join. Each function is empty, and its contract is the law.

ghost use Rattle.join_rules.specs.Laws.{SidesMayBeExchanged, OthersAreAsBefore, JoinsKeepSound, JoinsAddWhatLasts, WhatLastsOfJoinsIsSeen, WhatLastsOfJoinsFits, NothingElseJoins, JoinsTakeALeaf, JoinedOnlyWithinPatience, OneSiteJoinsAtOnce, SomeSiteJoinsAtOnce};

/// The value that a rule gives is the same with the sides exchanged.
pub fn sides_may_be_exchanged()
    ensures { SidesMayBeExchanged }
{}

/// Of two sites at most one joins two leaves at once, whatever each of them knows; and the one whose number is the lesser of the two
/// leaves' does.
pub fn one_site_joins_at_once()
    ensures one { OneSiteJoinsAtOnce }
    ensures some { SomeSiteJoinsAtOnce }
{}

/// A request to join leaves adds one record at most, and that is what lasts of it, as it is seen between the sites before and
/// behind it: it can be spelled, and may be taken back. A sound site is sound behind it. Where nothing is joined, nothing changes; and
/// all other requests are answered as without it. Where two leaves are joined there is one leaf less, and the site's rank for them is
/// at most its patience.
pub fn joins_are_records()
    ensures sound { JoinsKeepSound }
    ensures adds { JoinsAddWhatLasts }
    ensures seen { WhatLastsOfJoinsIsSeen }
    ensures fits { WhatLastsOfJoinsFits }
    ensures nothing { NothingElseJoins }
    ensures others { OthersAreAsBefore }
    ensures leaf { JoinsTakeALeaf }
    ensures patience { JoinedOnlyWithinPatience }
{}
