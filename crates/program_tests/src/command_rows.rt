//! Worked inputs and outputs of the commands.

/// Frames of session 1: it opens, begins, puts `1` to `x`, commits, begins, and gets `x`.
pub const SESSION: &[u8] = b"\0\0\0\x04\0\x01\x01\0\
\0\0\0\x04\0\x01\x02\0\
\0\0\0\x08\0\x01\x04\x01x\0\x011\
\0\0\0\x06\0\x01\x06\x01\0\0\
\0\0\0\x04\0\x01\x02\0\
\0\0\0\x05\0\x01\x03\x01x";

/// Their replies: opened under the root, begun there, done, committed as 1.1 from the root, begun there, the value of 1.1.
pub const REPLIES: &[u8] = b"\0\0\0\x07\x01\0\0\0\0\0\0\
\0\0\0\x07\x02\0\0\0\0\0\0\
\0\0\0\x01\x07\
\0\0\0\x0e\x08\0\x01\0\0\0\x01\x01\0\0\0\0\0\0\
\0\0\0\x07\x02\0\x01\0\0\0\x01\
\0\0\0\x0a\x04\0\x01\0\0\0\x01\0\x011";

/// The replies of site 2.
pub const REPLIES_OF_2: &[u8] = b"\0\0\0\x07\x01\0\0\0\0\0\0\
\0\0\0\x07\x02\0\0\0\0\0\0\
\0\0\0\x01\x07\
\0\0\0\x0e\x08\0\x02\0\0\0\x01\x01\0\0\0\0\0\0\
\0\0\0\x07\x02\0\x02\0\0\0\x01\
\0\0\0\x0a\x04\0\x02\0\0\0\x01\0\x011";

/// The session's first frame, and a part of a second one.
pub const CUT: &[u8] = b"\0\0\0\x04\0\x01\x01\0\0\0\0";

/// The session's first frame, and the length word of a frame that is too long by one byte.
pub const LONG: &[u8] = b"\0\0\0\x04\0\x01\x01\0\0\x10\0\x01";

/// The reply to the first frame.
pub const OPENED: &[u8] = b"\0\0\0\x07\x01\0\0\0\0\0\0";

/// The session, told in lines.
pub const TOLD: &[u8] = b"1 open -> opened 0.0
1 begin any -> begun 0.0
1 put x 1 -> done
1 commit ser -> committed 1.1 from 0.0
1 begin any -> begun 1.1
1 get x -> value 1.1 1
";

/// Two clients fork a cart; a line that is no request, and the last line has no line feed.
pub const FORK: &[u8] = b"1 open
2 open
1 begin any
2 begin any
1 get cart
2 get cart
1 put cart milk
2 put cart bread
1 commit ser
2 commit ser
1  open
0 leaves";

/// The lines that answer them.
pub const FORKED: &[u8] = b"opened 0.0
opened 0.0
begun 0.0
begun 0.0
absent
absent
done
done
committed 1.1 from 0.0
committed 1.2 from 0.0
refused malformed
states 2 1.1 1.2
";

/// Lines at site 1 of 2: its counts, two spaces in a row, an empty value, and a value that isn't spelled as it should be.
pub const ODD_LINES: &[u8] = b"0 stat
1  open
1 put k #
1 put k #31
";

/// The lines that answer them.
pub const ODD_ANSWERS: &[u8] = b"stat known 1 kept 1 leaves 1 sessions 0 sites 2 0:0.0:0 0:0.0:0
refused malformed
refused notopen
refused malformed
";

/// Two clients fork a set, and one has the leaves merged.
pub const AUTO: &[u8] = b"1 open
2 open
1 begin any
2 begin any
1 get cart
2 get cart
1 put cart milk
2 put cart bread
1 commit ser
2 commit ser
1 auto
1 auto
2 begin any
2 get cart
";

/// The lines that answer them, where the cart is a set.
pub const MERGED: &[u8] = b"opened 0.0
opened 0.0
begun 0.0
begun 0.0
absent
absent
done
done
committed 1.1 from 0.0
committed 1.2 from 0.0
auto 1.3
auto none
begun 1.3
value 1.3 bread,milk
";

/// The export of a state at which `x` alone has a value, `1`.
pub const EXPORT: &[u8] = b"\0\0\0\0\0\0\0\x01\x01x\0\x011";

/// The export of a state without values.
pub const EMPTY_EXPORT: &[u8] = b"\0\0\0\0\0\0\0\0";

/// Frames that bring a fresh site to `x` alone: session 1 opens and follows, begins, puts, commits, raises the floor and
/// collects.
pub const SCRIPT: &[u8] = b"\0\0\0\x04\0\x01\x01\x01\
\0\0\0\x04\0\x01\x02\0\
\0\0\0\x08\0\x01\x04\x01x\0\x011\
\0\0\0\x06\0\x01\x06\0\0\0\
\0\0\0\x03\0\x01\x0e\
\0\0\0\x05\0\x01\x0f\0\x40";

/// Their replies.
pub const CARRIED_OUT: &[u8] = b"\0\0\0\x07\x01\0\0\0\0\0\0\
\0\0\0\x07\x02\0\0\0\0\0\0\
\0\0\0\x01\x07\
\0\0\0\x0e\x08\0\x01\0\0\0\x01\x01\0\0\0\0\0\0\
\0\0\0\x0b\x0c\0\x01\0\0\0\x01\0\0\0\x01\
\0\0\0\x05\x0d\0\0\0\x01";

/// A Pull at site 1 of 2, which gives an empty batch, and a carry of an item that it hasn't.
pub const WORLD: &[u8] = b"\0\0\0\x0f\x01\0\x01\0\0\x13\x02\0\0\0\0\0\0\0\0\
\0\0\0\x0b\x02\0\x02\0\0\0\0\0\0\0\0";

/// What the world replies.
pub const WORLD_REPLIES: &[u8] = b"\0\0\0\x04\x10\0\0\0\
\0\0\0\x06\x15\x1c\0\0\0\x01";

/// The line of a load without steps.
pub const LOADED: &[u8] = b"load start 1 steps 0 events 9 committed 0 refused 0 known 1 kept 1\n";
