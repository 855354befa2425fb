//! Reading lists, whose number is known, from the front of bytes.
//!
//! Whether bytes are a spelling doesn't depend on memory: where memory is wanting for a list, the reader goes on behind
//! it all the same.

ghost use Rattle.std.specs.Prelude.{◌≡◌, ◌≤◌};
ghost use Rattle.tardis_base.specs.Keys.{are_ascending_keys};
ghost use Rattle.tardis_base.specs.Sizes.{most_sites};
ghost use Rattle.tardis_base.specs.Valid.{is_within};
ghost use Rattle.wire_item.specs.Fronts.{both, only_if, times};
ghost use Rattle.wire_item.specs.Readings.{id_front, key_front, u32_front};
ghost use Rattle.wire_item.specs.Takings.{Makes, Takes};
ghost use Rattle.wire_talk.specs.ReplyReadings.{site_line_front};

use crate::refusal_readers::{id_and_u32, new_key};
use item_bytes::Reader;
use std::alloc::Global;
use tardis_base::{
    KeyList, MAX_SITES, NoMemory, PathList, SiteLine, SiteLines, StateList, key_follows, pushed,
};

/// So many ids.
pub fn ids(alloc: Global, count: u32, reader: &mut Reader) -> Option<Result<StateList, NoMemory>>
    ensures { Makes (times id_front count) reader.old result reader.new }
{
    let mut ids = Ok(StateList::new(alloc));
    for _place in 0..count {
        let id = reader.id()?;
        ids = pushed(ids, Ok(id));
    }
    Some(ids)
}

/// So many keys in ascending order.
pub fn keys(alloc: Global, count: u16, reader: &mut Reader) -> Option<Result<KeyList, NoMemory>>
    ensures { Makes (only_if are_ascending_keys (times key_front count)) reader.old result reader.new }
{
    let mut keys = Ok(KeyList::new(alloc));
    let mut last = None;
    for _place in 0..count {
        let key = reader.key()?;
        if !key_follows(last, key) {
            return None;
        }
        keys = pushed(keys, new_key(alloc, key));
        last = Some(key);
    }
    Some(keys)
}

/// So many pairs of a fork and a branch.
pub fn pairs(alloc: Global, count: u32, reader: &mut Reader) -> Option<Result<PathList, NoMemory>>
    ensures { Makes (times (both id_front u32_front) count) reader.old result reader.new }
{
    let mut pairs = Ok(PathList::new(alloc));
    for _place in 0..count {
        let pair = id_and_u32(reader)?;
        pairs = pushed(pairs, Ok(pair));
    }
    Some(pairs)
}

/// So many site lines.
pub fn site_lines(count: u8, reader: &mut Reader) -> Option<SiteLines>
    requires { count ≤ most_sites }
    ensures { Takes (times site_line_front count) reader.old result reader.new }
{
    let mut lines = SiteLines::new();
    for _place in 0..count {
        let line = site_line(reader)?;
        lines.push(line);
    }
    Some(lines)
}

fn site_line(reader: &mut Reader) -> Option<SiteLine>
    ensures { Takes site_line_front reader.old result reader.new }
{
    let count = reader.u32()?;
    let floor = reader.id()?;
    let number = reader.u32()?;
    Some(SiteLine {
        count,
        floor,
        number,
    })
}

pub fn is_count_of_sites(count: u8) -> bool
    ensures { result ≡ is_within 1 most_sites count }
{
    (1..=MAX_SITES).contains(&u16::from(count))
}
