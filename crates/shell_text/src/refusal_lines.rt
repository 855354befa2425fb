//! Writing refusals from the bytes that spell them.

ghost use Rattle.std.specs.Prelude.{◌≡◌, ◌<◌, ◌≤◌, ◌∷◌, [], ◌++◌, codes};
ghost use Rattle.shell_text.specs.ReplyLines.{constraint_word, excess_word, refusal_words};
ghost use Rattle.text_words.specs.Puts.{putting, puts, spaced};
ghost use Rattle.text_words.specs.Words.{id_word, line, number_word};
ghost use Rattle.wire_item.specs.Fronts.{both, front_of_code, only_if};
ghost use Rattle.wire_item.specs.Readings.{id_front, u32_front, u8_front};
ghost use Rattle.wire_talk.specs.ReplyReadings.{excess_front, refusal_front, refusal_rows};
ghost use Rattle.wire_talk.specs.Valid.{is_constraint};
ghost use Rattle.wire_talk.specs.declared.refusal_codes.TheConstants.{BRANCHES};

use crate::field_words::{
    put_id, put_id_and_u32, put_key, put_two_ids, put_u8, put_u16, put_u16_and_id, put_u16_and_u32,
    put_u32, put_u64,
};
use text_words::{LineBuf, Unread};
use wire_talk::refusal_codes;

/// Writes the words of a refusal, with a space before each.
pub fn put_refusal(unread: &mut Unread, out: &mut LineBuf)
    ensures { putting unread.new out.new ≡ puts refusal_front (λ r. spaced (line (refusal_words r))) (putting unread.old out.old) }
{
    match unread.u8() {
        Some(code) => put_coded_refusal(code, unread, out),
        None => {},
    }
}

/// The refusal of the code.
fn put_coded_refusal(code: u8, unread: &mut Unread, out: &mut LineBuf)
    ensures { putting unread.new out.new ≡ puts (front_of_code code refusal_rows) (λ r. spaced (line (refusal_words r))) (putting unread.old out.old) }
{
    if code < refusal_codes::BRANCHES {
        put_low_refusal(code, unread, out);
    } else {
        put_high_refusal(code, unread, out);
    }
}

/// The refusal of a code below that of a commit that would branch.
fn put_low_refusal(code: u8, unread: &mut Unread, out: &mut LineBuf)
    requires { code < BRANCHES }
    ensures { putting unread.new out.new ≡ puts (front_of_code code refusal_rows) (λ r. spaced (line (refusal_words r))) (putting unread.old out.old) }
{
    match code {
        refusal_codes::MALFORMED => unread.say(b" malformed", out),
        refusal_codes::NOT_OPEN => unread.say(b" notopen", out),
        refusal_codes::ALREADY_OPEN => unread.say(b" alreadyopen", out),
        refusal_codes::SESSIONS_FULL => put_u16(b" sessionsfull", unread, out),
        refusal_codes::TXN_OPEN => unread.say(b" txnopen", out),
        refusal_codes::NO_TXN => unread.say(b" notxn", out),
        refusal_codes::WRONG_MODE => unread.say(b" wrongmode", out),
        refusal_codes::TOO_MANY => put_too_many(unread, out),
        refusal_codes::UNKNOWN => put_id(b" unknown", unread, out),
        refusal_codes::BELOW => put_two_ids(b" below", unread, out),
        refusal_codes::COMPARABLE => put_two_ids(b" comparable", unread, out),
        refusal_codes::NOT_READ => put_id(b" notread", unread, out),
        refusal_codes::CONFLICT_KEY => put_key(b" conflictkey", unread, out),
        refusal_codes::OPEN_CONFLICT => put_key(b" openconflict", unread, out),
        _ => unread.lose(),
    }
}

/// The refusal of a code from that of a commit that would branch on.
fn put_high_refusal(code: u8, unread: &mut Unread, out: &mut LineBuf)
    requires { BRANCHES ≤ code }
    ensures { putting unread.new out.new ≡ puts (front_of_code code refusal_rows) (λ r. spaced (line (refusal_words r))) (putting unread.old out.old) }
{
    match code {
        refusal_codes::BRANCHES => put_branches(unread, out),
        refusal_codes::CEILING_BACK => put_id(b" ceilingback", unread, out),
        refusal_codes::FLOOR_BACK => put_id(b" floorback", unread, out),
        refusal_codes::HELD => put_u16_and_id(b" held", unread, out),
        refusal_codes::COLLECTED => put_id(b" collected", unread, out),
        refusal_codes::FULL => put_u32(b" full", unread, out),
        refusal_codes::PATH_FULL => put_id_and_u32(b" pathfull", unread, out),
        refusal_codes::SEQ_END => unread.say(b" seqend", out),
        refusal_codes::BAD_SITE => put_u16(b" badsite", unread, out),
        refusal_codes::CLOSED_PARENT => put_id(b" closedparent", unread, out),
        refusal_codes::OWN_ITEM => put_u16_and_u32(b" ownitem", unread, out),
        refusal_codes::TRAIL_FULL => put_u64(b" trailfull", unread, out),
        refusal_codes::UNSUPPORTED => put_u8(b" unsupported", unread, out),
        refusal_codes::NO_SUCH_ITEM => put_u32(b" nosuchitem", unread, out),
        refusal_codes::BAG_FULL => put_u32(b" bagfull", unread, out),
        _ => unread.lose(),
    }
}

/// What there would be too many of, and how many.
fn put_too_many(unread: &mut Unread, out: &mut LineBuf)
    ensures { putting unread.new out.new
        ≡ puts (both excess_front u32_front) (λ p. (codes " toomany" ++ spaced (excess_word p.0)) ++ spaced (number_word p.1))
        (putting unread.old out.old) }
{
    let code = match unread.u8() {
        Some(code) => code,
        None => return,
    };
    match code {
        1 => put_u32(b" toomany writes", unread, out),
        2 => put_u32(b" toomany reads", unread, out),
        3 => put_u32(b" toomany states", unread, out),
        _ => unread.lose(),
    }
}

/// The constraint, the state and its children.
fn put_branches(unread: &mut Unread, out: &mut LineBuf)
    ensures { putting unread.new out.new
        ≡ puts (both (both (only_if is_constraint u8_front) id_front) u32_front)
        (λ p. ((codes " branches" ++ spaced (constraint_word p.0.0)) ++ spaced (id_word p.0.1)) ++ spaced (number_word p.1))
        (putting unread.old out.old) }
{
    let constraint = match unread.u8() {
        Some(constraint) => constraint,
        None => return,
    };
    match constraint {
        4 => put_id_and_u32(b" branches nb", unread, out),
        8 => put_id_and_u32(b" branches kb", unread, out),
        _ => unread.lose(),
    }
}
