//! Laws of the journal text.

ghost use Rattle.site_journal.specs.Laws.{OneReading, EveryReading, TextIsRead};

/// Bytes have one list of entries, whatever they are, and the journal text of entries has these. This call does nothing.
pub fn one_journal()
    ensures one { OneReading }
    ensures some { EveryReading }
    ensures text { TextIsRead }
{}
