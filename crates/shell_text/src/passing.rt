//! Passing over items and batches at the front of bytes. It takes no memory.

ghost use Rattle.std.specs.Prelude.{◌≡◌, ◌==◌, ◌&&◌, List, map, nat_le, nat_lt, not, true};
ghost use Rattle.std.specs.Option.{option_copied, option_map_or};
ghost use Rattle.shell_text.specs.Passing.{read_if};
ghost use Rattle.tardis_base.specs.declared.records.Consent.{Consent};
ghost use Rattle.tardis_base.specs.Ids.{are_ascending, root, same_id};
ghost use Rattle.tardis_base.specs.Keys.{KeyWrite, are_ascending_keys, keys_of};
ghost use Rattle.tardis_base.specs.Sizes.{most_sites, most_writes};
ghost use Rattle.wire_item.specs.Fronts.{both, only_if, times};
ghost use Rattle.wire_item.specs.Readings.{batch_front, consent_front, consents_front, id_front, item_front, key_front, parents_front};
ghost use Rattle.wire_item.specs.Readings.{record_front, records_front, write_front, writes_front};
ghost use Rattle.wire_item.specs.Takings.{Makes};
ghost use Rattle.wire_item.specs.Valid.{are_ascending_numbers};

use crate::list_fields::is_parent_count;
use crate::list_lines::id_follows;
use item_bytes::Reader;
use tardis_base::{MAX_SITES, MAX_WRITES, StateId, key_follows};

/// What is written to a key.
fn pass_write(reader: &mut Reader) -> bool
    ensures { Makes write_front reader.old (read_if result) reader.new }
{
    let kind = match reader.u8() {
        Some(kind) => kind,
        None => return false,
    };
    match kind {
        0 => true,
        1 => match reader.value() {
            Some(_) => true,
            None => false,
        },
        _ => false,
    }
}

/// So many ids in ascending order.
fn pass_ascending_ids(count: u8, reader: &mut Reader) -> bool
    ensures { Makes (only_if are_ascending (times id_front count)) reader.old (read_if result) reader.new }
{
    let mut last = None;
    for _place in 0..count {
        let id = match reader.id() {
            Some(id) => id,
            None => return false,
        };
        if !id_follows(last, id) {
            return false;
        }
        last = Some(id);
    }
    true
}

fn pass_parents(reader: &mut Reader) -> bool
    ensures { Makes parents_front reader.old (read_if result) reader.new }
{
    let count = match reader.u8() {
        Some(count) => count,
        None => return false,
    };
    if !pass_ascending_ids(count, reader) {
        return false;
    }
    is_parent_count(count)
}

/// So many keys in ascending order, with what is written to them.
fn pass_ascending_writes(count: u8, reader: &mut Reader) -> bool
    ensures { Makes (only_if (λ (ws : List KeyWrite). are_ascending_keys (keys_of ws)) (times (both key_front write_front) count))
        reader.old (read_if result) reader.new }
{
    let mut last = None;
    for _place in 0..count {
        let key = match reader.key() {
            Some(key) => key,
            None => return false,
        };
        if !pass_write(reader) {
            return false;
        }
        if !key_follows(last, key) {
            return false;
        }
        last = Some(key);
    }
    true
}

fn pass_writes(reader: &mut Reader) -> bool
    ensures { Makes writes_front reader.old (read_if result) reader.new }
{
    let count = match reader.u8() {
        Some(count) => count,
        None => return false,
    };
    if !pass_ascending_writes(count, reader) {
        return false;
    }
    is_write_count(count)
}

fn pass_record(reader: &mut Reader) -> bool
    ensures { Makes record_front reader.old (read_if result) reader.new }
{
    let id = match reader.id() {
        Some(id) => id,
        None => return false,
    };
    if !pass_parents(reader) {
        return false;
    }
    if !pass_writes(reader) {
        return false;
    }
    is_other(id)
}

/// An item.
pub fn pass_item(reader: &mut Reader) -> bool
    ensures { Makes item_front reader.old (read_if result) reader.new }
{
    let kind = match reader.u8() {
        Some(kind) => kind,
        None => return false,
    };
    match kind {
        1 => pass_record(reader),
        2 => match reader.consent() {
            Some(_) => true,
            None => false,
        },
        _ => false,
    }
}

fn pass_counted_records(count: u16, reader: &mut Reader) -> bool
    ensures { Makes (times record_front count) reader.old (read_if result) reader.new }
{
    for _place in 0..count {
        if !pass_record(reader) {
            return false;
        }
    }
    true
}

fn pass_records(reader: &mut Reader) -> bool
    ensures { Makes records_front reader.old (read_if result) reader.new }
{
    let count = match reader.u16() {
        Some(count) => count,
        None => return false,
    };
    pass_counted_records(count, reader)
}

/// So many consents, with their sites in ascending order.
fn pass_ascending_consents(count: u8, reader: &mut Reader) -> bool
    ensures { Makes (only_if (λ (cs : List Consent). are_ascending_numbers (map (λ c. c.site) cs)) (times consent_front count))
        reader.old (read_if result) reader.new }
{
    let mut last = None;
    for _place in 0..count {
        let consent = match reader.consent() {
            Some(consent) => consent,
            None => return false,
        };
        if !site_follows(last, consent.site) {
            return false;
        }
        last = Some(consent.site);
    }
    true
}

fn pass_consents(reader: &mut Reader) -> bool
    ensures { Makes consents_front reader.old (read_if result) reader.new }
{
    let count = match reader.u8() {
        Some(count) => count,
        None => return false,
    };
    if !pass_ascending_consents(count, reader) {
        return false;
    }
    is_consent_count(count)
}

/// A batch.
pub fn pass_batch(reader: &mut Reader) -> bool
    ensures { Makes batch_front reader.old (read_if result) reader.new }
{
    if !pass_records(reader) {
        return false;
    }
    pass_consents(reader)
}

fn is_write_count(count: u8) -> bool
    ensures { result ≡ nat_le count most_writes }
{
    usize::from(count) <= MAX_WRITES
}

fn is_consent_count(count: u8) -> bool
    ensures { result ≡ nat_le count most_sites }
{
    u16::from(count) <= MAX_SITES
}

/// Whether the id is another than the root's.
fn is_other(id: StateId) -> bool
    ensures { result ≡ not (same_id id root) }
{
    !(id.site == 0 && id.sequence == 0)
}

/// Whether the site may stand behind this one in ascending order.
fn site_follows(last: Option<u16>, site: u16) -> bool
    ensures { result ≡ option_map_or (λ before. nat_lt before site) last true }
{
    match last {
        Some(before) => before < site,
        None => true,
    }
}
