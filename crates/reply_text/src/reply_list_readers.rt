//! Reading the lists of replies from the front of a line.
//!
//! Whether a line is one of a reply doesn't depend on memory: where memory is wanting for a list, its words are read all
//! the same.

ghost use Rattle.std.specs.Prelude.{◌≡◌, ◌≤◌, IfOk, IfSome, length, option_map, take, true};
ghost use Rattle.std.specs.Option.{option_map_or};
ghost use Rattle.shell_text.specs.Answers.{AreRead};
ghost use Rattle.shell_text.specs.ReplyTexts.{id_text, pair_text, parents_text, site_line_text, site_lines_text, u32_text};
ghost use Rattle.shell_text.specs.RequestTexts.{key_text};
ghost use Rattle.tardis_base.specs.Ids.{are_ascending};
ghost use Rattle.tardis_base.specs.Keys.{are_ascending_keys, is_key_before};
ghost use Rattle.tardis_base.specs.Sizes.{most_parents, most_sites};
ghost use Rattle.tardis_base.specs.Valid.{is_within};
ghost use Rattle.text_words.specs.Texts.{rest_of};
ghost use Rattle.wire_item.specs.Fronts.{counted, only_if, times};
ghost use Rattle.wire_talk.specs.Valid.{are_first_ids, are_first_keys, is_first_of};

use shell_text::{id_follows, ids, key_into};
use std::alloc::Global;
use tardis_base::{
    Key, KeyList, MAX_KEY, MAX_NAMED, MAX_PARENTS, MAX_SITES, NoMemory, PathList, SiteLine,
    SiteLines, StateId, StateList, key_follows, pushed,
};
use text_words::Words;

/// The parents of a state: all of the ids that are left.
pub fn parents<'a>(
    alloc: Global,
    words: &Words<'a>,
) -> Option<(Result<StateList, NoMemory>, Words<'a>)>
    ensures { AreRead parents_text words.now result }
{
    let count = words.count();
    if is_parent_count(count) {
        ascending_ids(alloc, count, words)
    } else {
        None
    }
}

fn is_parent_count(count: usize) -> bool
    ensures { result ≡ is_within 1 most_parents count }
{
    (1..=MAX_PARENTS).contains(&count)
}

/// So many ids in ascending order.
fn ascending_ids<'a>(
    alloc: Global,
    count: usize,
    words: &Words<'a>,
) -> Option<(Result<StateList, NoMemory>, Words<'a>)>
    ensures { AreRead (only_if are_ascending (times id_text count)) words.now result }
{
    let mut ids = Ok(StateList::new(alloc));
    let mut left = words.again();
    let mut last = None;
    for _place in 0..count {
        match left.id(b' ') {
            Some((id, next)) => {
                if !id_follows(last, id) {
                    return None;
                }
                ids = pushed(ids, Ok(id));
                last = Some(id);
                left = next;
            },
            None => return None,
        }
    }
    Some((ids, left))
}

/// The first ids of so many: all that are left.
pub fn first_ids<'a>(
    alloc: Global,
    total: u32,
    words: &Words<'a>,
) -> Option<(Result<StateList, NoMemory>, Words<'a>)>
    ensures { AreRead (only_if (are_first_ids total) (rest_of id_text)) words.now result }
{
    let count = words.count();
    if is_first_of(total, count) {
        ids(alloc, count, words)
    } else {
        None
    }
}

/// The first keys of so many: all that are left.
pub fn first_keys<'a>(
    alloc: Global,
    total: u32,
    words: &Words<'a>,
) -> Option<(Result<KeyList, NoMemory>, Words<'a>)>
    ensures { AreRead (only_if (are_first_keys total) (rest_of key_text)) words.now result }
{
    let count = words.count();
    if is_first_of(total, count) {
        ascending_keys(alloc, count, words)
    } else {
        None
    }
}

fn is_first_of(total: u32, count: usize) -> bool
    ensures { result ≡ is_first_of total count }
{
    count == (total as usize).min(MAX_NAMED)
}

/// So many keys in ascending order.
fn ascending_keys<'a>(
    alloc: Global,
    count: usize,
    words: &Words<'a>,
) -> Option<(Result<KeyList, NoMemory>, Words<'a>)>
    ensures { AreRead (only_if are_ascending_keys (times key_text count)) words.now result }
{
    let mut keys = Ok(KeyList::new(alloc));
    let mut left = words.again();
    let mut last = None;
    let mut last_room = [0; MAX_KEY];
    for _place in 0..count {
        let mut room = [0; MAX_KEY];
        match key_into(&left, &mut room) {
            Some((length, next)) => {
                let key = &room[..length];
                if !follows(last, &last_room, key) {
                    return None;
                }
                keys = pushed(keys, new_key(alloc, key));
                last = Some(length);
                last_room = room;
                left = next;
            },
            None => return None,
        }
    }
    Some((keys, left))
}

/// Whether the key may stand behind so many bytes of the room in ascending order.
fn follows(last: Option<usize>, room: &[u8], key: &[u8]) -> bool
    requires { IfSome last (λ n. n ≤ length room.now) }
    ensures { result ≡ option_map_or (λ before. is_key_before before key.now) (option_map (λ n. take n room.now) last) true }
{
    match last {
        Some(length) => key_follows(Some(&room[..length]), key),
        None => true,
    }
}

fn new_key(alloc: Global, key: &[u8]) -> Result<Key, NoMemory>
    ensures { IfOk result (λ k. k ≡ key.now) }
{
    match Key::new(alloc, key) {
        Ok(key) => Ok(key),
        Err(_) => Err(NoMemory),
    }
}

/// The children of a state, behind their number.
pub fn children<'a>(
    alloc: Global,
    words: &Words<'a>,
) -> Option<(Result<StateList, NoMemory>, Words<'a>)>
    ensures { AreRead (counted u32_text (times id_text)) words.now result }
{
    match words.u32(b' ') {
        Some((count, left)) => ids(alloc, count as usize, &left),
        None => None,
    }
}

/// The pairs of a fork path, behind their number.
pub fn path<'a>(alloc: Global, words: &Words<'a>) -> Option<(Result<PathList, NoMemory>, Words<'a>)>
    ensures { AreRead (counted u32_text (times pair_text)) words.now result }
{
    match words.u32(b' ') {
        Some((count, left)) => pairs(alloc, count, &left),
        None => None,
    }
}

/// So many pairs of a fork and a branch.
fn pairs<'a>(
    alloc: Global,
    count: u32,
    words: &Words<'a>,
) -> Option<(Result<PathList, NoMemory>, Words<'a>)>
    ensures { AreRead (times pair_text count) words.now result }
{
    let mut pairs = Ok(PathList::new(alloc));
    let mut left = words.again();
    for _place in 0..count {
        match pair(&left) {
            Some((pair, next)) => {
                pairs = pushed(pairs, Ok(pair));
                left = next;
            },
            None => return None,
        }
    }
    Some((pairs, left))
}

fn pair<'a>(words: &Words<'a>) -> Option<((StateId, u32), Words<'a>)>
    ensures { result ≡ pair_text words.now }
{
    let (fork, left) = words.id(b':')?;
    let (branch, left) = left.u32(b' ')?;
    Some(((fork, branch), left))
}

/// The lines of sites, behind their number.
pub fn lines_of_sites<'a>(words: &Words<'a>) -> Option<(SiteLines, Words<'a>)>
    ensures { result ≡ site_lines_text words.now }
{
    match words.u32(b' ') {
        Some((count, left)) => {
            if is_count_of_sites(count) {
                site_lines(count, &left)
            } else {
                None
            }
        },
        None => None,
    }
}

fn is_count_of_sites(count: u32) -> bool
    ensures { result ≡ is_within 1 most_sites count }
{
    (1..=u32::from(MAX_SITES)).contains(&count)
}

/// So many lines of sites.
fn site_lines<'a>(count: u32, words: &Words<'a>) -> Option<(SiteLines, Words<'a>)>
    requires { count ≤ most_sites }
    ensures { result ≡ times site_line_text count words.now }
{
    let mut lines = SiteLines::new();
    let mut left = words.again();
    for _place in 0..count {
        match site_line(&left) {
            Some((line, next)) => {
                lines.push(line);
                left = next;
            },
            None => return None,
        }
    }
    Some((lines, left))
}

fn site_line<'a>(words: &Words<'a>) -> Option<(SiteLine, Words<'a>)>
    ensures { result ≡ site_line_text words.now }
{
    let (count, left) = words.u32(b':')?;
    let (floor, left) = left.id(b':')?;
    let (number, left) = left.u32(b' ')?;
    Some((
        SiteLine {
            count,
            floor,
            number,
        },
        left,
    ))
}
