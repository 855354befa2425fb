//! What is true of every reply.

ghost use Rattle.plain_site.specs.Laws.{RefusalsLeaveSite, RefusedBytesLeaveSite, EarlyRecordsWait, EarlyBytesWait, NeverWantsMemory};
ghost use Rattle.plain_site.specs.Laws.{RefusesAsASite, RepliesFit, RepliesToBytesFit};

use wire_talk::talk_has_one_spelling;

/// After a refusal, after Known and after Early the site is as it was, an open transaction included: over requests, and
/// over their bytes. The one exception is the Early of a record, which `early_records_wait` speaks of.
pub fn refusals_leave_site()
    ensures requests { RefusalsLeaveSite }
    ensures bytes { RefusedBytesLeaveSite }
{}

/// A record that is told Early changes the waiting room alone, which holds it from then on: over requests, and over their
/// bytes.
pub fn early_records_wait()
    ensures requests { EarlyRecordsWait }
    ensures bytes { EarlyBytesWait }
{}

/// The plain site never says that memory is wanting, and spells no reply so. What says it is the machine that runs the
/// program, and a reader of its replies takes that for nothing else.
pub fn memory_is_never_wanted()
    ensures { NeverWantsMemory }
{}

/// The plain site carries all operations out, and knows of no trail and no bag of batches: it refuses nothing as
/// `Unsupported`, `TrailFull`, `NoSuchItem` or `BagFull`. Whoever is told so, is told by a program around a site.
pub fn refusals_are_of_a_site()
    ensures { RefusesAsASite }
{}

/// Each reply of a sound site is one that can be spelled: its ids are ids, its numbers fit their bits, and its lists have the
/// order and the length that a reader asks for. And it has at most 1,048,576 bytes, as many as a frame holds; only a Show
/// of many children and a Pull of many records come near that.
pub fn replies_fit_a_frame()
    ensures requests { RepliesFit }
    ensures bytes { RepliesToBytesFit }
{
    talk_has_one_spelling();
}
