//! Writers of the fields of what is told, behind the bytes of a buffer. No call takes memory: the buffer has its room.

ghost use Rattle.std.specs.Prelude.{◌≡◌, ◌+◌, ◌≤◌, ◌∷◌, ◌++◌, flat_map, length, IsTrue};
ghost use Rattle.std.specs.List.{list_all};
ghost use Rattle.tardis_base.specs.Sizes.{longest_frame};
ghost use Rattle.wire_item.specs.Spellings.{id_spelling, key_spelling, parents_spelling, u16_spelling, u32_spelling, write_spelling};
ghost use Rattle.wire_talk.specs.Spellings.{children_spelling, first_keys_spelling, flag_spelling};
ghost use Rattle.wire_talk.specs.Valid.{are_children, are_first_keys};
ghost use Rattle.plain_questions.specs.Spellings.{entry_spelling, first_entries_spelling, first_sessions_spelling, fork_read_spelling, fork_reads_spelling};
ghost use Rattle.plain_questions.specs.Spellings.{found_spelling, limits_spelling, session_spelling, version_spelling, written_spelling};
ghost use Rattle.plain_questions.specs.Valid.{are_few, are_first_entries, are_first_sessions, are_fork_reads, are_written, is_session};

use item_bytes::{
    write_id, write_ids, write_key, write_u8, write_u16, write_u32, write_u64, write_value,
};
use plain_questions::{Entry, EntryList, ForkRead, ForkReadList, SessionLine, SessionLines};
use tardis_base::{KeyList, Limits, ReplyBuf, StateId, StateList, Write};

fn write_flag(flag: bool, out: &mut ReplyBuf)
    requires { length out.old + 1 ≤ longest_frame }
    ensures { out.new ≡ out.old ++ flag_spelling flag }
{
    out.push_byte(if flag { 1 } else { 0 });
}

fn write_write(write: &Write, out: &mut ReplyBuf)
    requires { length out.old + length (write_spelling write.now) ≤ longest_frame }
    ensures { out.new ≡ out.old ++ write_spelling write.now }
{
    match write {
        Write::Put(value) => {
            write_u8(1, out);
            write_value(value, out);
        },
        Write::Delete => write_u8(0, out),
    }
}

fn write_version(version: &(StateId, Write), out: &mut ReplyBuf)
    requires { length out.old + length (version_spelling version.now) ≤ longest_frame }
    ensures { out.new ≡ out.old ++ version_spelling version.now }
{
    write_id(version.0, out);
    write_write(&version.1, out);
}

/// Nothing, or a state and what it wrote.
pub fn write_found(found: &Option<(StateId, Write)>, out: &mut ReplyBuf)
    requires { length out.old + length (found_spelling found.now) ≤ longest_frame }
    ensures { out.new ≡ out.old ++ found_spelling found.now }
{
    match found {
        Some(version) => {
            write_u8(1, out);
            write_version(version, out);
        },
        None => write_u8(0, out),
    }
}

/// At most 8 states.
pub fn write_few(states: &StateList, out: &mut ReplyBuf)
    requires valid { IsTrue (are_few states.now) }
    requires fits { length out.old + length (parents_spelling states.now) ≤ longest_frame }
    ensures { out.new ≡ out.old ++ parents_spelling states.now }
{
    write_u8(states.len() as u8, out);
    write_ids(states.as_slice(), out);
}

pub fn write_children(children: &StateList, out: &mut ReplyBuf)
    requires valid { IsTrue (are_children children.now) }
    requires fits { length out.old + length (children_spelling children.now) ≤ longest_frame }
    ensures { out.new ≡ out.old ++ children_spelling children.now }
{
    write_u32(children.len() as u32, out);
    write_ids(children.as_slice(), out);
}

/// How many there are, and how many of them follow.
fn write_counts(total: u32, count: u16, out: &mut ReplyBuf)
    requires { length out.old + 6 ≤ longest_frame }
    ensures { out.new ≡ out.old ++ (u32_spelling total ++ u16_spelling count) }
{
    write_u32(total, out);
    write_u16(count, out);
}

fn write_each_key(keys: &KeyList, out: &mut ReplyBuf)
    requires fits { length out.old + length (flat_map key_spelling keys.now) ≤ longest_frame }
    ensures { out.new ≡ out.old ++ flat_map key_spelling keys.now }
{
    for key in keys.as_slice() {
        write_key(key, out);
    }
}

/// The first keys of so many.
pub fn write_first_keys(total: u32, first: &KeyList, out: &mut ReplyBuf)
    requires valid { IsTrue (are_first_keys total first.now) }
    requires fits { length out.old + length (first_keys_spelling total first.now) ≤ longest_frame }
    ensures { out.new ≡ out.old ++ first_keys_spelling total first.now }
{
    write_counts(total, first.len() as u16, out);
    write_each_key(first, out);
}

/// At most 64 keys.
pub fn write_written(keys: &KeyList, out: &mut ReplyBuf)
    requires valid { IsTrue (are_written keys.now) }
    requires fits { length out.old + length (written_spelling keys.now) ≤ longest_frame }
    ensures { out.new ≡ out.old ++ written_spelling keys.now }
{
    write_u8(keys.len() as u8, out);
    write_each_key(keys, out);
}

fn write_entry(entry: &Entry, out: &mut ReplyBuf)
    requires { length out.old + length (entry_spelling entry.now) ≤ longest_frame }
    ensures { out.new ≡ out.old ++ entry_spelling entry.now }
{
    write_key(&entry.key, out);
    write_value(&entry.value, out);
}

fn write_each_entry(entries: &EntryList, out: &mut ReplyBuf)
    requires fits { length out.old + length (flat_map entry_spelling entries.now) ≤ longest_frame }
    ensures { out.new ≡ out.old ++ flat_map entry_spelling entries.now }
{
    for entry in entries.as_slice() {
        write_entry(entry, out);
    }
}

/// The first entries of so many.
pub fn write_first_entries(total: u32, first: &EntryList, out: &mut ReplyBuf)
    requires valid { IsTrue (are_first_entries total first.now) }
    requires fits { length out.old + length (first_entries_spelling total first.now) ≤ longest_frame }
    ensures { out.new ≡ out.old ++ first_entries_spelling total first.now }
{
    write_counts(total, first.len() as u16, out);
    write_each_entry(first, out);
}

fn write_fork_read(read: &ForkRead, out: &mut ReplyBuf)
    requires { length out.old + length (fork_read_spelling read.now) ≤ longest_frame }
    ensures { out.new ≡ out.old ++ fork_read_spelling read.now }
{
    write_id(read.fork_point, out);
    write_found(&read.found, out);
}

fn write_each_fork_read(reads: &ForkReadList, out: &mut ReplyBuf)
    requires fits { length out.old + length (flat_map fork_read_spelling reads.now) ≤ longest_frame }
    ensures { out.new ≡ out.old ++ flat_map fork_read_spelling reads.now }
{
    for read in reads.as_slice() {
        write_fork_read(read, out);
    }
}

/// The reads at 1 to 8 fork points.
pub fn write_fork_reads(reads: &ForkReadList, out: &mut ReplyBuf)
    requires valid { IsTrue (are_fork_reads reads.now) }
    requires fits { length out.old + length (fork_reads_spelling reads.now) ≤ longest_frame }
    ensures { out.new ≡ out.old ++ fork_reads_spelling reads.now }
{
    write_u8(reads.len() as u8, out);
    write_each_fork_read(reads, out);
}

fn write_session(line: &SessionLine, out: &mut ReplyBuf)
    requires valid { IsTrue (is_session line.now) }
    requires fits { length out.old + length (session_spelling line.now) ≤ longest_frame }
    ensures { out.new ≡ out.old ++ session_spelling line.now }
{
    write_u16(line.number, out);
    write_flag(line.follow, out);
    write_id(line.ceiling, out);
    write_id(line.last, out);
    write_few(&line.reads, out);
    write_flag(line.holds, out);
}

fn write_each_session(lines: &SessionLines, out: &mut ReplyBuf)
    requires valid { IsTrue (list_all is_session lines.now) }
    requires fits { length out.old + length (flat_map session_spelling lines.now) ≤ longest_frame }
    ensures { out.new ≡ out.old ++ flat_map session_spelling lines.now }
{
    for line in lines.as_slice() {
        write_session(line, out);
    }
}

/// The first sessions of so many.
pub fn write_first_sessions(total: u32, first: &SessionLines, out: &mut ReplyBuf)
    requires valid { IsTrue (are_first_sessions total first.now) }
    requires fits { length out.old + length (first_sessions_spelling total first.now) ≤ longest_frame }
    ensures { out.new ≡ out.old ++ first_sessions_spelling total first.now }
{
    write_counts(total, first.len() as u16, out);
    write_each_session(first, out);
}

pub fn write_limits(limits: Limits, out: &mut ReplyBuf)
    requires { length out.old + 20 ≤ longest_frame }
    ensures { out.new ≡ out.old ++ limits_spelling limits }
{
    write_u16(limits.sites, out);
    write_u32(limits.max_kept, out);
    write_u32(limits.max_path, out);
    write_u16(limits.max_sessions, out);
    write_u64(limits.max_trail, out);
}
