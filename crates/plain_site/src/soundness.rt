//! Every step keeps a sound site sound.

ghost use Rattle.tardis_base.specs.declared.requests.Request.{Request};
ghost use Rattle.plain_site.specs.CollectionLaws.{BelowCollectedIsTurnedAway, CollectedAreNeverAdmitted};
ghost use Rattle.plain_site.specs.Laws.{BytesKeepSound, ClosedGetNoChild, KeepsSound, OpeningIsSound, RunsKeepSound};

use wire_talk::talk_has_one_spelling;

/// A site that opens is sound, where its limits are such as a site may have and its number is that of one of the sites.
pub fn opening_is_sound()
    ensures { OpeningIsSound }
{}

/// Each request, done or refused, leaves a sound site sound. So a history stays a history, and stays within its limits:
/// what a commit or a delivery adds is the next record of its site, with known parents that are apart. Each open
/// transaction reads at states that are known, admitted and apart, whatever other sessions and other sites do meanwhile.
/// The own floor stays at or above every ceiling. What is collected stays closed and gets no further child, and
/// its children share a stand-in.
pub fn every_request_keeps_sound()
    ensures { (q : Request) → KeepsSound q }
{}

/// A closed state gets no further child here: what a transaction commits below is admitted under its session's ceiling, and
/// a delivered record with a closed parent is refused.
pub fn closed_states_get_no_child()
    ensures { (q : Request) → ClosedGetNoChild q }
{}

/// Whatever bytes actors send, a sound site stays sound: bytes that spell no request change nothing, and what is read from
/// them is a request. So every site that events lead to from a sound one is sound.
pub fn every_run_keeps_sound()
    ensures bytes { BytesKeepSound }
    ensures runs { RunsKeepSound }
{
    talk_has_one_spelling();
}

/// What is collected is left alone: no open session's transaction may begin or read at it, and a delivered record with a
/// collected parent is never applied. Such a record is refused with ClosedParent, unless its site is no other one of the
/// sites, or it is known or early.
pub fn collected_states_are_left_alone()
    ensures admitted { CollectedAreNeverAdmitted }
    ensures delivered { BelowCollectedIsTurnedAway }
{}
