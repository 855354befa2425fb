//! The laws of spellings. Each function is empty, and its contract is laws.

ghost use Rattle.wire_item.specs.Laws.{BatchesHaveOneSpelling, ConsentsHaveOneSpelling, ConsentsHaveSixteenBytes, ItemsHaveOneSpelling};
ghost use Rattle.wire_item.specs.Laws.{RecordsAreBounded, RecordsHaveOneSpelling, RecordsHaveTheirLength};

/// Each thing has one spelling, and bytes are read as the one thing of a kind that they spell.
pub fn things_have_one_spelling()
    ensures record { RecordsHaveOneSpelling }
    ensures consent { ConsentsHaveOneSpelling }
    ensures item { ItemsHaveOneSpelling }
    ensures batch { BatchesHaveOneSpelling }
{}

/// How many bytes a record's spelling has, and a consent's.
pub fn spellings_have_their_lengths()
    ensures record { RecordsHaveTheirLength }
    ensures bound { RecordsAreBounded }
    ensures consent { ConsentsHaveSixteenBytes }
{}
