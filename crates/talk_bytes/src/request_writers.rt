//! The writer of requests. It takes no memory.

ghost use Rattle.std.specs.Prelude.{◌≡◌, ◌+◌, ◌≤◌, ◌∷◌, ◌++◌, length, flat_map, IsTrue};
ghost use Rattle.tardis_base.specs.Sizes.{longest_frame};
ghost use Rattle.wire_item.specs.Spellings.{id_spelling, item_spelling, key_spelling, u16_spelling, u32_spelling, value_spelling};
ghost use Rattle.wire_item.specs.Valid.{is_item};
ghost use Rattle.wire_talk.specs.Spellings.{after_spelling, begin_spelling, counts_spelling, flag_spelling, merge_of_spelling, request_spelling};
ghost use Rattle.wire_talk.specs.Valid.{are_counts, is_after, is_merge_of, is_request};
ghost use Rattle.wire_talk.specs.declared.request_codes.TheConstants.{BEGIN, BEGIN_MERGE, COMMIT, CONFLICTS, DELIVER, GET_FOR, OPEN, PULL, PUT};

use crate::field_writers::{write_code_with_id, write_code_with_key, write_code_with_u16};
use item_bytes::{write_id, write_ids, write_item, write_u16, write_u32, write_value};
use tardis_base::{
    Begin, ByteList, CountList, EndFlags, Item, Key, MergeOf, ReplyBuf, Request, StateId, Value,
};
use wire_talk::request_codes;

fn write_open(follow: bool, out: &mut ReplyBuf)
    requires { length out.old + 2 ≤ longest_frame }
    ensures { out.new ≡ out.old ++ OPEN ∷ flag_spelling follow }
{
    out.push_byte(request_codes::OPEN);
    out.push_byte(if follow { 1 } else { 0 });
}

fn write_begin(begin: &Begin, out: &mut ReplyBuf)
    requires { length out.old + length (BEGIN ∷ begin_spelling begin.now) ≤ longest_frame }
    ensures { out.new ≡ out.old ++ BEGIN ∷ begin_spelling begin.now }
{
    out.push_byte(request_codes::BEGIN);
    match begin {
        Begin::Any => out.push_byte(0),
        Begin::Ancestor => out.push_byte(1),
        Begin::Parent => out.push_byte(2),
        Begin::At(state) => write_code_with_id(3, *state, out),
    }
}

fn write_put(key: &Key, value: &Value, out: &mut ReplyBuf)
    requires { length out.old + length (PUT ∷ (key_spelling key.now ++ value_spelling value.now)) ≤ longest_frame }
    ensures { out.new ≡ out.old ++ PUT ∷ (key_spelling key.now ++ value_spelling value.now) }
{
    write_code_with_key(request_codes::PUT, key, out);
    write_value(value, out);
}

fn write_commit(flags: EndFlags, k: u16, out: &mut ReplyBuf)
    requires { length out.old + 4 ≤ longest_frame }
    ensures { out.new ≡ out.old ++ COMMIT ∷ flags.0 ∷ u16_spelling k }
{
    out.push_byte(request_codes::COMMIT);
    out.push_byte(flags.0);
    write_u16(k, out);
}

fn write_begin_merge(of: &MergeOf, out: &mut ReplyBuf)
    requires valid { IsTrue (is_merge_of of.now) }
    requires fits { length out.old + length (BEGIN_MERGE ∷ merge_of_spelling of.now) ≤ longest_frame }
    ensures { out.new ≡ out.old ++ BEGIN_MERGE ∷ merge_of_spelling of.now }
{
    out.push_byte(request_codes::BEGIN_MERGE);
    match of {
        MergeOf::Leaves => out.push_byte(0),
        MergeOf::States(states) => {
            out.push_byte(states.len() as u8);
            write_ids(states.as_slice(), out);
        },
    }
}

fn write_conflicts(after: &ByteList, out: &mut ReplyBuf)
    requires valid { IsTrue (is_after after.now) }
    requires fits { length out.old + length (CONFLICTS ∷ after_spelling after.now) ≤ longest_frame }
    ensures { out.new ≡ out.old ++ CONFLICTS ∷ after_spelling after.now }
{
    out.push_byte(request_codes::CONFLICTS);
    out.push_byte(after.len() as u8);
    out.push(after.as_slice());
}

fn write_get_for(key: &Key, state: StateId, out: &mut ReplyBuf)
    requires { length out.old + length (GET_FOR ∷ (key_spelling key.now ++ id_spelling state)) ≤ longest_frame }
    ensures { out.new ≡ out.old ++ GET_FOR ∷ (key_spelling key.now ++ id_spelling state) }
{
    write_code_with_key(request_codes::GET_FOR, key, out);
    write_id(state, out);
}

fn write_each_count(counts: &CountList, out: &mut ReplyBuf)
    requires fits { length out.old + length (flat_map u32_spelling counts.now) ≤ longest_frame }
    ensures { out.new ≡ out.old ++ flat_map u32_spelling counts.now }
{
    for count in counts.as_slice() {
        write_u32(*count, out);
    }
}

fn write_pull(counts: &CountList, out: &mut ReplyBuf)
    requires valid { IsTrue (are_counts counts.now) }
    requires fits { length out.old + length (PULL ∷ counts_spelling counts.now) ≤ longest_frame }
    ensures { out.new ≡ out.old ++ PULL ∷ counts_spelling counts.now }
{
    out.push_byte(request_codes::PULL);
    out.push_byte(counts.len() as u8);
    write_each_count(counts, out);
}

fn write_deliver(item: &Item, out: &mut ReplyBuf)
    requires valid { IsTrue (is_item item.now) }
    requires fits { length out.old + length (DELIVER ∷ item_spelling item.now) ≤ longest_frame }
    ensures { out.new ≡ out.old ++ DELIVER ∷ item_spelling item.now }
{
    out.push_byte(request_codes::DELIVER);
    write_item(item, out);
}

/// Writes the request's code and its fields behind the bytes that are there. It takes no memory.
pub fn write_request(request: &Request, out: &mut ReplyBuf)
    requires valid { IsTrue (is_request request.now) }
    requires fits { length out.old + length (request_spelling request.now) ≤ longest_frame }
    ensures { out.new ≡ out.old ++ request_spelling request.now }
{
    match request {
        Request::Open { follow } => write_open(*follow, out),
        Request::Begin { begin } => write_begin(begin, out),
        Request::Get { key } => write_code_with_key(request_codes::GET, key, out),
        Request::Put { key, value } => write_put(key, value, out),
        Request::Delete { key } => write_code_with_key(request_codes::DELETE, key, out),
        Request::Commit { flags, k } => write_commit(*flags, *k, out),
        Request::Abort => out.push_byte(request_codes::ABORT),
        Request::BeginMerge { of } => write_begin_merge(of, out),
        Request::ForkPoints => out.push_byte(request_codes::FORK_POINTS),
        Request::Conflicts { after } => write_conflicts(after, out),
        Request::GetFor { key, state } => write_get_for(key, *state, out),
        Request::Ceiling { state } => write_code_with_id(request_codes::CEILING, *state, out),
        Request::Raise { state } => write_code_with_id(request_codes::RAISE, *state, out),
        Request::RaiseAuto => out.push_byte(request_codes::RAISE_AUTO),
        Request::Tidy { n } => write_code_with_u16(request_codes::TIDY, *n, out),
        Request::Stat => out.push_byte(request_codes::STAT),
        Request::Show { state } => write_code_with_id(request_codes::SHOW, *state, out),
        Request::Leaves => out.push_byte(request_codes::LEAVES),
        Request::Pull { counts } => write_pull(counts, out),
        Request::Deliver { item } => write_deliver(item, out),
        Request::Close => out.push_byte(request_codes::CLOSE),
        Request::Settle => out.push_byte(request_codes::SETTLE),
    }
}
