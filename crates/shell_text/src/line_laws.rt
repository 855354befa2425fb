//! The laws of lines. Each function is empty, and its contract is laws. Those that no program needs are in `reply_text`.

ghost use Rattle.shell_text.specs.Laws.{RepliesHaveOneLine, ReplyLinesFit, RequestLinesFit, RequestsHaveOneLine};

/// Each request of an actor and each reply has one line, no two have the same, and a line is read as the one request, or
/// the one reply, of which it is the line.
pub fn lines_have_one_reading()
    ensures request { RequestsHaveOneLine }
    ensures reply { RepliesHaveOneLine }
{}

/// The line of a request or of a reply that fits a frame has room in a [`LineBuf`](crate::LineBuf).
pub fn lines_fit_their_room()
    ensures request { RequestLinesFit }
    ensures reply { ReplyLinesFit }
{}
