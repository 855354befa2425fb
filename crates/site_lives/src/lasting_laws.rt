//! Laws of what lasts of a site and of the lives that it knows. Each call does nothing.

ghost use Rattle.site_lives.specs.RestLaws.{NothingShorterLasts, SiteIsReplayed, SiteFits, SiteHasItsThings, AllIsReplayed, FrontsAreOfFronts, AllFits, OneWayBack};
ghost use Rattle.site_lives.specs.RestLaws.{LargerLimitsTakeBytes, UntoldIsSound, BytesKeepSound, BytesTakeNothingAway, BytesLeaveAtRest, BytesGoOn, BytesKeepOrder, AdditionsGoOn, EventsGoOn};

use wire_lives::introductions_have_one_spelling;
use wire_talk::talk_has_one_spelling;

/// What lasts of the site is what lasts of it where it knows no lives, and leads it to where that leads. So all that is true of
/// that (`rest_laws`) is true here. Rows and checkpoints, by which a history is told shorter, last of no request.
pub fn what_lasts_of_the_site_is_its_own()
    ensures nothing_shorter { NothingShorterLasts }
    ensures replayed { SiteIsReplayed }
    ensures fits { SiteFits }
    ensures things { SiteHasItsThings }
{}

/// What a site takes back under its limits, it takes back under larger ones too, and becomes the same site but for these. What it
/// takes back leaves it sound, with what a checkpoint told of which no end was told; and takes nothing away: the history goes on from
/// the one that it had, and no promise has a lower number.
pub fn larger_limits_take_the_same_bytes()
    ensures takes { LargerLimitsTakeBytes }
    ensures untold { UntoldIsSound }
    ensures sound { BytesKeepSound }
    ensures nothing_away { BytesTakeNothingAway }
{}

/// What lasts of a whole trail leads to the site at rest behind it, with the lives that it knows then, and a front of it to where a
/// front of the trail does. It may be taken back, and each front of it; and bytes are taken back in one way at most.
pub fn lives_last_beside_the_site()
    ensures replayed { AllIsReplayed }
    ensures fronts { FrontsAreOfFronts }
    ensures fits { AllFits }
    ensures one { OneWayBack }
{
    talk_has_one_spelling();
    introductions_have_one_spelling();
}

/// What took bytes back is at rest, and what stands in more bytes may be taken back behind it, as if all had been one. So what lasts of
/// each event goes on from what lasted before it, to the site at rest behind the event; and so does whatever else is added to a site,
/// where it fits and is all that was added.
pub fn what_lasts_goes_on()
    ensures rests { BytesLeaveAtRest }
    ensures onward { BytesGoOn }
    ensures order { BytesKeepOrder }
    ensures additions { AdditionsGoOn }
    ensures events { EventsGoOn }
{
    talk_has_one_spelling();
    introductions_have_one_spelling();
}
