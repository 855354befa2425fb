//! The laws of spellings. Each function is empty, and its contract is laws or worked spellings.

ghost use Rattle.wire_talk.specs.Laws.{NoMemoryIsSpelled, RepliesHaveOneSpelling, RequestsBeginWithTheirCode, RequestsHaveOneSpelling};
ghost use Rattle.wire_talk.specs.Rows.{BeginAtIsRead, CommitIsRead, CommitWithNumberIsRead, DeliverIsRead, EmptyKeyIsNone, FourthKindIsNone};
ghost use Rattle.wire_talk.specs.Rows.{LongBeginIsNone, MergeOfLeavesIsRead, NumberWithoutFlagIsNone, PutIsRead};

/// Each request and each reply has one spelling, and bytes are read as the one request, and the one reply, that they
/// spell.
pub fn talk_has_one_spelling()
    ensures request { RequestsHaveOneSpelling }
    ensures reply { RepliesHaveOneSpelling }
{}

/// A request's first byte is its code.
pub fn requests_begin_with_their_code()
    ensures { RequestsBeginWithTheirCode }
{}

/// The reply that memory is wanting is spelled as a machine answers it.
pub fn no_memory_is_spelled()
    ensures { NoMemoryIsSpelled }
{}

/// Worked spellings of requests.
pub fn requests_are_read()
    ensures commit { CommitIsRead }
    ensures commit_with_number { CommitWithNumberIsRead }
    ensures number_without_flag { NumberWithoutFlagIsNone }
    ensures fourth_kind { FourthKindIsNone }
    ensures long_begin { LongBeginIsNone }
    ensures begin_at { BeginAtIsRead }
    ensures put { PutIsRead }
    ensures empty_key { EmptyKeyIsNone }
    ensures merge_of_leaves { MergeOfLeavesIsRead }
    ensures deliver { DeliverIsRead }
{}
