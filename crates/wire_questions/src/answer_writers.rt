//! The writer of what is told. It takes no memory.
//!
//! How answers are spelled is stated in `docs/FORMATS.md`. The cost grows with the number of bytes.

ghost use Rattle.std.specs.Prelude.{◌≡◌, ◌+◌, ◌≤◌, ◌∷◌, ◌++◌, length, IsTrue};
ghost use Rattle.tardis_base.specs.Sizes.{longest_frame};
ghost use Rattle.wire_item.specs.Spellings.{parents_spelling, u16_spelling, u32_spelling, u64_spelling};
ghost use Rattle.wire_talk.specs.Spellings.{children_spelling, first_keys_spelling};
ghost use Rattle.wire_talk.specs.Valid.{are_children, are_first_keys};
ghost use Rattle.plain_questions.specs.Spellings.{answer_spelling, denial_spelling, written_spelling};
ghost use Rattle.plain_questions.specs.Valid.{are_few, are_first_entries, are_first_sessions, are_fork_reads, are_written, is_answer};
ghost use Rattle.plain_questions.specs.declared.questions.Answered.{Answered};
ghost use Rattle.plain_questions.specs.declared.questions.Answered.TheVariants.{Entries, ForkReads, Keys, Read, Record, Refused, Sessions, Site};
ghost use Rattle.plain_questions.specs.declared.answer_codes.TheConstants.{RECORD};

use crate::field_writers::{
    write_children, write_few, write_first_entries, write_first_keys, write_first_sessions,
    write_fork_reads, write_found, write_limits, write_written,
};
use item_bytes::{write_id, write_u16, write_u32, write_u64};
use plain_questions::{Answered, Denial, EntryList, ForkReadList, SessionLines, answer_codes};
use tardis_base::{KeyList, Limits, ReplyBuf, StateId, StateList, Write};
use wire_talk::{refusal_codes, reply_codes};

fn write_read(found: &Option<(StateId, Write)>, out: &mut ReplyBuf)
    requires fits { length out.old + length (answer_spelling (Read found.now)) ≤ longest_frame }
    ensures { out.new ≡ out.old ++ answer_spelling (Read found.now) }
{
    out.push_byte(answer_codes::READ);
    write_found(found, out);
}

fn write_keys(total: u32, first: &KeyList, out: &mut ReplyBuf)
    requires valid { IsTrue (are_first_keys total first.now) }
    requires fits { length out.old + length (answer_spelling (Keys total first.now)) ≤ longest_frame }
    ensures { out.new ≡ out.old ++ answer_spelling (Keys total first.now) }
{
    out.push_byte(answer_codes::KEYS);
    write_first_keys(total, first, out);
}

fn write_entries(total: u32, first: &EntryList, out: &mut ReplyBuf)
    requires valid { IsTrue (are_first_entries total first.now) }
    requires fits { length out.old + length (answer_spelling (Entries total first.now)) ≤ longest_frame }
    ensures { out.new ≡ out.old ++ answer_spelling (Entries total first.now) }
{
    out.push_byte(answer_codes::ENTRIES);
    write_first_entries(total, first, out);
}

fn write_arrival(arrival: u64, out: &mut ReplyBuf)
    requires { length out.old + 9 ≤ longest_frame }
    ensures { out.new ≡ out.old ++ RECORD ∷ u64_spelling arrival }
{
    out.push_byte(answer_codes::RECORD);
    write_u64(arrival, out);
}

fn write_record(
    arrival: u64,
    parents: &StateList,
    kept_parents: &StateList,
    kept_children: &StateList,
    keys: &KeyList,
    out: &mut ReplyBuf,
)
    requires parents { IsTrue (are_few parents.now) }
    requires kept_parents { IsTrue (are_few kept_parents.now) }
    requires kept_children { IsTrue (are_children kept_children.now) }
    requires keys { IsTrue (are_written keys.now) }
    requires fits { length out.old + length (answer_spelling (Record arrival parents.now kept_parents.now kept_children.now keys.now)) ≤ longest_frame }
    ensures { out.new ≡ out.old ++ answer_spelling (Record arrival parents.now kept_parents.now kept_children.now keys.now) }
{
    write_arrival(arrival, out);
    write_few(parents, out);
    write_few(kept_parents, out);
    write_children(kept_children, out);
    write_written(keys, out);
}

fn write_reads(reads: &ForkReadList, out: &mut ReplyBuf)
    requires valid { IsTrue (are_fork_reads reads.now) }
    requires fits { length out.old + length (answer_spelling (ForkReads reads.now)) ≤ longest_frame }
    ensures { out.new ≡ out.old ++ answer_spelling (ForkReads reads.now) }
{
    out.push_byte(answer_codes::FORK_READS);
    write_fork_reads(reads, out);
}

fn write_sessions(floor: StateId, total: u32, first: &SessionLines, out: &mut ReplyBuf)
    requires valid { IsTrue (are_first_sessions total first.now) }
    requires fits { length out.old + length (answer_spelling (Sessions floor total first.now)) ≤ longest_frame }
    ensures { out.new ≡ out.old ++ answer_spelling (Sessions floor total first.now) }
{
    out.push_byte(answer_codes::SESSIONS);
    write_id(floor, out);
    write_first_sessions(total, first, out);
}

fn write_site(version: u16, limits: Limits, own: u16, known: u64, kept: u32, out: &mut ReplyBuf)
    requires { length out.old + 37 ≤ longest_frame }
    ensures { out.new ≡ out.old ++ answer_spelling (Site version limits own known kept) }
{
    out.push_byte(answer_codes::SITE);
    write_u16(version, out);
    write_limits(limits, out);
    write_u16(own, out);
    write_u64(known, out);
    write_u32(kept, out);
}

fn write_denial(why: Denial, out: &mut ReplyBuf)
    requires { length out.old + length (denial_spelling why) ≤ longest_frame }
    ensures { out.new ≡ out.old ++ denial_spelling why }
{
    match why {
        Denial::Malformed => out.push_byte(refusal_codes::MALFORMED),
        Denial::Unknown { state } => {
            out.push_byte(refusal_codes::UNKNOWN);
            write_id(state, out);
        },
        Denial::Collected { state } => {
            out.push_byte(refusal_codes::COLLECTED);
            write_id(state, out);
        },
        Denial::ForkPoints { number } => {
            out.push_byte(refusal_codes::TOO_MANY);
            out.push_byte(answer_codes::FORK_POINTS);
            write_u32(number, out);
        },
    }
}

fn write_refused(why: Denial, out: &mut ReplyBuf)
    requires { length out.old + length (answer_spelling (Refused why)) ≤ longest_frame }
    ensures { out.new ≡ out.old ++ answer_spelling (Refused why) }
{
    out.push_byte(reply_codes::REFUSED);
    write_denial(why, out);
}

/// Writes what is told behind the bytes that are there: its code and its fields. It takes no memory.
pub fn write_answer(answer: &Answered, out: &mut ReplyBuf)
    requires valid { IsTrue (is_answer answer.now) }
    requires fits { length out.old + length (answer_spelling answer.now) ≤ longest_frame }
    ensures { out.new ≡ out.old ++ answer_spelling answer.now }
{
    match answer {
        Answered::Read { found } => write_read(found, out),
        Answered::Keys { total, first } => write_keys(*total, first, out),
        Answered::Entries { total, first } => write_entries(*total, first, out),
        Answered::Record {
            arrival,
            parents,
            kept_parents,
            kept_children,
            keys,
        } => write_record(*arrival, parents, kept_parents, kept_children, keys, out),
        Answered::ForkReads { reads } => write_reads(reads, out),
        Answered::Sessions {
            floor,
            total,
            first,
        } => write_sessions(*floor, *total, first, out),
        Answered::Site {
            version,
            limits,
            own,
            known,
            kept,
        } => write_site(*version, *limits, *own, *known, *kept, out),
        Answered::Refused { why } => write_refused(*why, out),
    }
}
