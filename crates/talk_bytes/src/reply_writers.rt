//! The writer of replies. It takes no memory.

ghost use Rattle.std.specs.Prelude.{◌≡◌, ◌+◌, ◌≤◌, ◌∷◌, ◌++◌, length, flat_map, IsTrue};
ghost use Rattle.tardis_base.specs.Sizes.{longest_frame};
ghost use Rattle.wire_item.specs.Spellings.{batch_spelling, id_spelling, key_spelling, parents_spelling, u16_spelling, u32_spelling, u64_spelling};
ghost use Rattle.wire_item.specs.Valid.{is_batch};
ghost use Rattle.tardis_base.specs.Valid.{are_parents};
ghost use Rattle.wire_talk.specs.Spellings.{children_spelling, first_ids_spelling, first_keys_spelling, pair_spelling, path_spelling};
ghost use Rattle.wire_talk.specs.Spellings.{reply_spelling, site_line_spelling, site_lines_spelling};
ghost use Rattle.wire_talk.specs.Valid.{are_children, are_first_ids, are_first_keys, is_path, is_refusal, is_reply};
ghost use Rattle.wire_talk.specs.declared.reply_codes.TheConstants.{BATCH, KEYS, MERGING, SHOWN, STAT, STATES};

use crate::field_writers::{write_code_with_id, write_code_with_id_and_u32, write_code_with_u32};
use crate::refusal_writers::write_refusal;
use item_bytes::{
    write_batch, write_id, write_ids, write_key, write_parents, write_u16, write_u32, write_u64,
    write_value,
};
use tardis_base::{
    Batch, KeyList, PathList, Refusal, Reply, ReplyBuf, SiteLine, SiteLines, StateId, StateList,
    Value,
};
use wire_talk::reply_codes;

fn write_merging(states: &StateList, out: &mut ReplyBuf)
    requires valid { IsTrue (are_parents states.now) }
    requires fits { length out.old + length (MERGING ∷ parents_spelling states.now) ≤ longest_frame }
    ensures { out.new ≡ out.old ++ MERGING ∷ parents_spelling states.now }
{
    out.push_byte(reply_codes::MERGING);
    write_parents(states, out);
}

/// Writes the reply that a value is read, behind the bytes that are there, from a value that is only lent. It takes no
/// memory.
pub fn write_value_reply(writer: StateId, value: &Value, out: &mut ReplyBuf)
    requires { length out.old + length (reply_spelling (Reply.Value writer value.now)) ≤ longest_frame }
    ensures { out.new ≡ out.old ++ reply_spelling (Reply.Value writer value.now) }
{
    write_code_with_id(reply_codes::VALUE, writer, out);
    write_value(value, out);
}

/// Writes the reply that a transaction began at the state, behind the bytes that are there.
pub fn write_begun(state: StateId, out: &mut ReplyBuf)
    requires { length out.old + 7 ≤ longest_frame }
    ensures { out.new ≡ out.old ++ reply_spelling (Reply.Begun state) }
{
    write_code_with_id(reply_codes::BEGUN, state, out);
}

/// Writes the reply that the value which is read was deleted, behind the bytes that are there.
pub fn write_deleted(writer: StateId, out: &mut ReplyBuf)
    requires { length out.old + 7 ≤ longest_frame }
    ensures { out.new ≡ out.old ++ reply_spelling (Reply.Deleted writer) }
{
    write_code_with_id(reply_codes::DELETED, writer, out);
}

/// Writes the reply that there is no value to read, behind the bytes that are there.
pub fn write_absent(out: &mut ReplyBuf)
    requires { length out.old + 1 ≤ longest_frame }
    ensures { out.new ≡ out.old ++ reply_spelling Reply.Absent }
{
    out.push_byte(reply_codes::ABSENT);
}

/// Writes the reply that the request is done, behind the bytes that are there.
pub fn write_done(out: &mut ReplyBuf)
    requires { length out.old + 1 ≤ longest_frame }
    ensures { out.new ≡ out.old ++ reply_spelling Reply.Done }
{
    out.push_byte(reply_codes::DONE);
}

/// Writes the reply that a state was made by a commit, behind the bytes that are there, from parents that are only lent.
pub fn write_committed(id: StateId, parents: &StateList, out: &mut ReplyBuf)
    requires valid { IsTrue (are_parents parents.now) }
    requires fits { length out.old + length (reply_spelling (Reply.Committed id parents.now)) ≤ longest_frame }
    ensures { out.new ≡ out.old ++ reply_spelling (Reply.Committed id parents.now) }
{
    write_code_with_id(reply_codes::COMMITTED, id, out);
    write_parents(parents, out);
}

/// Writes the reply that a transaction ended at the state with no write, behind the bytes that are there.
pub fn write_ended(state: StateId, out: &mut ReplyBuf)
    requires { length out.old + 7 ≤ longest_frame }
    ensures { out.new ≡ out.old ++ reply_spelling (Reply.Ended state) }
{
    write_code_with_id(reply_codes::ENDED, state, out);
}

fn write_code_with_counts(code: u8, total: u32, count: u16, out: &mut ReplyBuf)
    requires { length out.old + 7 ≤ longest_frame }
    ensures { out.new ≡ out.old ++ code ∷ (u32_spelling total ++ u16_spelling count) }
{
    write_code_with_u32(code, total, out);
    write_u16(count, out);
}

fn write_states(total: u32, first: &StateList, out: &mut ReplyBuf)
    requires valid { IsTrue (are_first_ids total first.now) }
    requires fits { length out.old + length (STATES ∷ first_ids_spelling total first.now) ≤ longest_frame }
    ensures { out.new ≡ out.old ++ STATES ∷ first_ids_spelling total first.now }
{
    write_code_with_counts(reply_codes::STATES, total, first.len() as u16, out);
    write_ids(first.as_slice(), out);
}

fn write_each_key(keys: &KeyList, out: &mut ReplyBuf)
    requires fits { length out.old + length (flat_map key_spelling keys.now) ≤ longest_frame }
    ensures { out.new ≡ out.old ++ flat_map key_spelling keys.now }
{
    for key in keys.as_slice() {
        write_key(key, out);
    }
}

fn write_keys(total: u32, first: &KeyList, out: &mut ReplyBuf)
    requires valid { IsTrue (are_first_keys total first.now) }
    requires fits { length out.old + length (KEYS ∷ first_keys_spelling total first.now) ≤ longest_frame }
    ensures { out.new ≡ out.old ++ KEYS ∷ first_keys_spelling total first.now }
{
    write_code_with_counts(reply_codes::KEYS, total, first.len() as u16, out);
    write_each_key(first, out);
}

fn write_sizes(known: u64, kept: u32, leaves: u32, sessions: u16, out: &mut ReplyBuf)
    requires { length out.old + 19 ≤ longest_frame }
    ensures { out.new ≡ out.old ++ STAT ∷ (u64_spelling known ++ u32_spelling kept ++ u32_spelling leaves ++ u16_spelling sessions) }
{
    out.push_byte(reply_codes::STAT);
    write_u64(known, out);
    write_u32(kept, out);
    write_u32(leaves, out);
    write_u16(sessions, out);
}

fn write_site_line(line: &SiteLine, out: &mut ReplyBuf)
    requires { length out.old + 14 ≤ longest_frame }
    ensures { out.new ≡ out.old ++ site_line_spelling line.now }
{
    write_u32(line.count, out);
    write_id(line.floor, out);
    write_u32(line.number, out);
}

fn write_each_site_line(lines: &SiteLines, out: &mut ReplyBuf)
    requires fits { length out.old + length (flat_map site_line_spelling lines.now) ≤ longest_frame }
    ensures { out.new ≡ out.old ++ flat_map site_line_spelling lines.now }
{
    for line in lines.as_slice() {
        write_site_line(line, out);
    }
}

fn write_site_lines(lines: &SiteLines, out: &mut ReplyBuf)
    requires fits { length out.old + length (site_lines_spelling lines.now) ≤ longest_frame }
    ensures { out.new ≡ out.old ++ site_lines_spelling lines.now }
{
    out.push_byte(lines.len() as u8);
    write_each_site_line(lines, out);
}

fn write_children(children: &StateList, out: &mut ReplyBuf)
    requires valid { IsTrue (are_children children.now) }
    requires fits { length out.old + length (children_spelling children.now) ≤ longest_frame }
    ensures { out.new ≡ out.old ++ children_spelling children.now }
{
    write_u32(children.len() as u32, out);
    write_ids(children.as_slice(), out);
}

fn write_pair(fork: StateId, branch: u32, out: &mut ReplyBuf)
    requires { length out.old + 10 ≤ longest_frame }
    ensures { out.new ≡ out.old ++ pair_spelling (fork, branch) }
{
    write_id(fork, out);
    write_u32(branch, out);
}

fn write_each_pair(path: &PathList, out: &mut ReplyBuf)
    requires fits { length out.old + length (flat_map pair_spelling path.now) ≤ longest_frame }
    ensures { out.new ≡ out.old ++ flat_map pair_spelling path.now }
{
    for (fork, branch) in path.as_slice() {
        write_pair(*fork, *branch, out);
    }
}

fn write_path(path: &PathList, out: &mut ReplyBuf)
    requires valid { IsTrue (is_path path.now) }
    requires fits { length out.old + length (path_spelling path.now) ≤ longest_frame }
    ensures { out.new ≡ out.old ++ path_spelling path.now }
{
    write_u32(path.len() as u32, out);
    write_each_pair(path, out);
}

fn write_arrival(arrival: u64, out: &mut ReplyBuf)
    requires { length out.old + 9 ≤ longest_frame }
    ensures { out.new ≡ out.old ++ SHOWN ∷ u64_spelling arrival }
{
    out.push_byte(reply_codes::SHOWN);
    write_u64(arrival, out);
}

fn write_shown(arrival: u64, children: &StateList, path: &PathList, out: &mut ReplyBuf)
    requires children { IsTrue (are_children children.now) }
    requires path { IsTrue (is_path path.now) }
    requires fits { length out.old + length (SHOWN ∷ (u64_spelling arrival ++ children_spelling children.now ++ path_spelling path.now)) ≤ longest_frame }
    ensures { out.new ≡ out.old ++ SHOWN ∷ (u64_spelling arrival ++ children_spelling children.now ++ path_spelling path.now) }
{
    write_arrival(arrival, out);
    write_children(children, out);
    write_path(path, out);
}

fn write_batch_reply(batch: &Batch, out: &mut ReplyBuf)
    requires valid { IsTrue (is_batch batch.now) }
    requires fits { length out.old + length (BATCH ∷ batch_spelling batch.now) ≤ longest_frame }
    ensures { out.new ≡ out.old ++ BATCH ∷ batch_spelling batch.now }
{
    out.push_byte(reply_codes::BATCH);
    write_batch(batch, out);
}

/// Writes the reply that the request is refused, behind the bytes that are there, from a refusal that is only lent.
pub fn write_refused(refusal: &Refusal, out: &mut ReplyBuf)
    requires valid { IsTrue (is_refusal refusal.now) }
    requires fits { length out.old + length (reply_spelling (Reply.Refused refusal.now)) ≤ longest_frame }
    ensures { out.new ≡ out.old ++ reply_spelling (Reply.Refused refusal.now) }
{
    out.push_byte(reply_codes::REFUSED);
    write_refusal(refusal, out);
}

fn write_statistics(
    known: u64,
    kept: u32,
    leaves: u32,
    sessions: u16,
    sites: &SiteLines,
    out: &mut ReplyBuf,
)
    requires fits { length out.old + length (reply_spelling (Reply.Stat known kept leaves sessions sites.now)) ≤ longest_frame }
    ensures { out.new ≡ out.old ++ reply_spelling (Reply.Stat known kept leaves sessions sites.now) }
{
    write_sizes(known, kept, leaves, sessions, out);
    write_site_lines(sites, out);
}

/// Writes the reply's code and its fields behind the bytes that are there. It takes no memory.
pub fn write_reply(reply: &Reply, out: &mut ReplyBuf)
    requires valid { IsTrue (is_reply reply.now) }
    requires fits { length out.old + length (reply_spelling reply.now) ≤ longest_frame }
    ensures { out.new ≡ out.old ++ reply_spelling reply.now }
{
    match reply {
        Reply::Opened { ceiling } => write_code_with_id(reply_codes::OPENED, *ceiling, out),
        Reply::Begun { state } => write_begun(*state, out),
        Reply::Merging { states } => write_merging(states, out),
        Reply::Value { writer, value } => write_value_reply(*writer, value, out),
        Reply::Deleted { writer } => write_deleted(*writer, out),
        Reply::Absent => write_absent(out),
        Reply::Done => write_done(out),
        Reply::Committed { id, parents } => write_committed(*id, parents, out),
        Reply::Ended { state } => write_ended(*state, out),
        Reply::States { total, first } => write_states(*total, first, out),
        Reply::Keys { total, first } => write_keys(*total, first, out),
        Reply::Raised { floor, number } => write_code_with_id_and_u32(
            reply_codes::RAISED,
            *floor,
            *number,
            out,
        ),
        Reply::Tidied { collected } => write_code_with_u32(reply_codes::TIDIED, *collected, out),
        Reply::Stat {
            known,
            kept,
            leaves,
            sessions,
            sites,
        } => write_statistics(*known, *kept, *leaves, *sessions, sites, out),
        Reply::Shown {
            arrival,
            children,
            path,
        } => write_shown(*arrival, children, path, out),
        Reply::Batch { batch } => write_batch_reply(batch, out),
        Reply::Applied => out.push_byte(reply_codes::APPLIED),
        Reply::Known => out.push_byte(reply_codes::KNOWN),
        Reply::Early { have } => write_code_with_u32(reply_codes::EARLY, *have, out),
        Reply::Closed => out.push_byte(reply_codes::CLOSED),
        Reply::Refused { refusal } => write_refused(refusal, out),
        Reply::NoMemory => out.push_byte(reply_codes::NO_MEMORY),
    }
}
