//! The laws of lines that no program needs. Each function is empty, and its contract is laws or worked lines.

ghost use Rattle.reply_text.specs.Laws.{ReplyLinesEnd, RequestLinesEnd};
ghost use Rattle.reply_text.specs.Rows.{CommitLineIsRead, CommittedLineIsRead, EmptyAfterIsNoLine, GetForLineIsRead, HexOfPlainIsNoLine};
ghost use Rattle.reply_text.specs.Rows.{LeadingZeroIsNoLine, LongNumberIsNoLine, MergeLineIsRead, OpenLineIsRead, OtherOrderIsNoLine, PullLineIsRead};
ghost use Rattle.reply_text.specs.Rows.{PutLineIsRead, RaiseAutoLineIsRead, RefusedLineIsRead, SettleLineIsRead, SpaceBehindIsNoLine};
ghost use Rattle.reply_text.specs.Rows.{StatisticsLineIsRead, TwoSpacesAreNoLine, UpperCaseIsNoLine};

/// A line is printed characters and spaces alone, and the line feed behind it tells where it ends: with it, no line is a
/// front of another (without it `1 open` is a front of `1 open follow`).
pub fn lines_end_at_their_line_feed()
    ensures request { RequestLinesEnd }
    ensures reply { ReplyLinesEnd }
{}

/// Worked lines.
pub fn lines_are_read()
    ensures open { OpenLineIsRead }
    ensures put { PutLineIsRead }
    ensures commit { CommitLineIsRead }
    ensures merge { MergeLineIsRead }
    ensures get_for { GetForLineIsRead }
    ensures raise_auto { RaiseAutoLineIsRead }
    ensures pull { PullLineIsRead }
    ensures settle { SettleLineIsRead }
    ensures leading_zero { LeadingZeroIsNoLine }
    ensures two_spaces { TwoSpacesAreNoLine }
    ensures space_behind { SpaceBehindIsNoLine }
    ensures other_order { OtherOrderIsNoLine }
    ensures hex_of_plain { HexOfPlainIsNoLine }
    ensures upper_case { UpperCaseIsNoLine }
    ensures empty_after { EmptyAfterIsNoLine }
    ensures long_number { LongNumberIsNoLine }
    ensures committed { CommittedLineIsRead }
    ensures statistics { StatisticsLineIsRead }
    ensures refused { RefusedLineIsRead }
{}
