//! The writer of refusals. It takes no memory.

ghost use Rattle.std.specs.Prelude.{◌≡◌, ◌+◌, ◌≤◌, [], ◌∷◌, ◌++◌, length, IsTrue};
ghost use Rattle.tardis_base.specs.Sizes.{longest_frame};
ghost use Rattle.wire_item.specs.Spellings.{id_spelling, u16_spelling, u32_spelling, u64_spelling};
ghost use Rattle.wire_talk.specs.Spellings.{excess_code, excess_spelling, refusal_spelling};
ghost use Rattle.wire_talk.specs.Valid.{is_refusal};
ghost use Rattle.wire_talk.specs.declared.refusal_codes.TheConstants.{BRANCHES, HELD, OWN_ITEM, TOO_MANY, TRAIL_FULL, UNSUPPORTED};

use crate::field_writers::{
    write_code_with_id, write_code_with_id_and_u32, write_code_with_key, write_code_with_two_ids,
    write_code_with_u16, write_code_with_u32,
};
use item_bytes::{write_id, write_u32, write_u64};
use tardis_base::{Excess, Refusal, ReplyBuf, StateId};
use wire_talk::refusal_codes;

/// The code of what there would be too many of.
fn excess_code(what: Excess) -> u8
    ensures { result ≡ excess_code what }
{
    match what {
        Excess::WrittenKeys => 1,
        Excess::ReadKeys => 2,
        Excess::MergedStates => 3,
    }
}

fn write_too_many(what: Excess, n: u32, out: &mut ReplyBuf)
    requires { length out.old + 6 ≤ longest_frame }
    ensures { out.new ≡ out.old ++ TOO_MANY ∷ (excess_spelling what ++ u32_spelling n) }
{
    out.push_byte(refusal_codes::TOO_MANY);
    write_code_with_u32(excess_code(what), n, out);
}

fn write_branches(constraint: u8, state: StateId, children: u32, out: &mut ReplyBuf)
    requires { length out.old + 12 ≤ longest_frame }
    ensures { out.new ≡ out.old ++ BRANCHES ∷ constraint ∷ (id_spelling state ++ u32_spelling children) }
{
    out.push_byte(refusal_codes::BRANCHES);
    write_code_with_id_and_u32(constraint, state, children, out);
}

fn write_held(session: u16, ceiling: StateId, out: &mut ReplyBuf)
    requires { length out.old + 9 ≤ longest_frame }
    ensures { out.new ≡ out.old ++ HELD ∷ (u16_spelling session ++ id_spelling ceiling) }
{
    write_code_with_u16(refusal_codes::HELD, session, out);
    write_id(ceiling, out);
}

fn write_own_item(site: u16, number: u32, out: &mut ReplyBuf)
    requires { length out.old + 7 ≤ longest_frame }
    ensures { out.new ≡ out.old ++ OWN_ITEM ∷ (u16_spelling site ++ u32_spelling number) }
{
    write_code_with_u16(refusal_codes::OWN_ITEM, site, out);
    write_u32(number, out);
}

fn write_trail_full(bytes: u64, out: &mut ReplyBuf)
    requires { length out.old + 9 ≤ longest_frame }
    ensures { out.new ≡ out.old ++ TRAIL_FULL ∷ u64_spelling bytes }
{
    out.push_byte(refusal_codes::TRAIL_FULL);
    write_u64(bytes, out);
}

fn write_unsupported(op: u8, out: &mut ReplyBuf)
    requires { length out.old + 2 ≤ longest_frame }
    ensures { out.new ≡ out.old ++ UNSUPPORTED ∷ op ∷ [] }
{
    out.push_byte(refusal_codes::UNSUPPORTED);
    out.push_byte(op);
}

/// Writes the refusal's code and its fields behind the bytes that are there. It takes no memory.
pub fn write_refusal(refusal: &Refusal, out: &mut ReplyBuf)
    requires valid { IsTrue (is_refusal refusal.now) }
    requires fits { length out.old + length (refusal_spelling refusal.now) ≤ longest_frame }
    ensures { out.new ≡ out.old ++ refusal_spelling refusal.now }
{
    match refusal {
        Refusal::Malformed => out.push_byte(refusal_codes::MALFORMED),
        Refusal::NotOpen => out.push_byte(refusal_codes::NOT_OPEN),
        Refusal::AlreadyOpen => out.push_byte(refusal_codes::ALREADY_OPEN),
        Refusal::SessionsFull { n } => write_code_with_u16(refusal_codes::SESSIONS_FULL, *n, out),
        Refusal::TxnOpen => out.push_byte(refusal_codes::TXN_OPEN),
        Refusal::NoTxn => out.push_byte(refusal_codes::NO_TXN),
        Refusal::WrongMode => out.push_byte(refusal_codes::WRONG_MODE),
        Refusal::TooMany { what, n } => write_too_many(*what, *n, out),
        Refusal::Unknown { state } => write_code_with_id(refusal_codes::UNKNOWN, *state, out),
        Refusal::Below { state, ceiling } => write_code_with_two_ids(
            refusal_codes::BELOW,
            *state,
            *ceiling,
            out,
        ),
        Refusal::Comparable { a, b } => write_code_with_two_ids(
            refusal_codes::COMPARABLE,
            *a,
            *b,
            out,
        ),
        Refusal::NotRead { state } => write_code_with_id(refusal_codes::NOT_READ, *state, out),
        Refusal::ConflictKey { key } => write_code_with_key(refusal_codes::CONFLICT_KEY, key, out),
        Refusal::OpenConflict { key } => write_code_with_key(
            refusal_codes::OPEN_CONFLICT,
            key,
            out,
        ),
        Refusal::Branches {
            constraint,
            state,
            children,
        } => write_branches(*constraint, *state, *children, out),
        Refusal::CeilingBack { ceiling } => write_code_with_id(
            refusal_codes::CEILING_BACK,
            *ceiling,
            out,
        ),
        Refusal::FloorBack { floor } => write_code_with_id(refusal_codes::FLOOR_BACK, *floor, out),
        Refusal::Held { session, ceiling } => write_held(*session, *ceiling, out),
        Refusal::Collected { state } => write_code_with_id(refusal_codes::COLLECTED, *state, out),
        Refusal::Full { kept } => write_code_with_u32(refusal_codes::FULL, *kept, out),
        Refusal::PathFull { state, pairs } => write_code_with_id_and_u32(
            refusal_codes::PATH_FULL,
            *state,
            *pairs,
            out,
        ),
        Refusal::SeqEnd => out.push_byte(refusal_codes::SEQ_END),
        Refusal::BadSite { site } => write_code_with_u16(refusal_codes::BAD_SITE, *site, out),
        Refusal::ClosedParent { state } => write_code_with_id(
            refusal_codes::CLOSED_PARENT,
            *state,
            out,
        ),
        Refusal::OwnItem { site, number } => write_own_item(*site, *number, out),
        Refusal::TrailFull { bytes } => write_trail_full(*bytes, out),
        Refusal::Unsupported { op } => write_unsupported(*op, out),
        Refusal::NoSuchItem { batches } => write_code_with_u32(
            refusal_codes::NO_SUCH_ITEM,
            *batches,
            out,
        ),
        Refusal::BagFull { batches } => write_code_with_u32(refusal_codes::BAG_FULL, *batches, out),
    }
}
