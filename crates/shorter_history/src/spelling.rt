//! A step's thing in bytes. Rules are stated in `docs/FORMATS.md`.

ghost use Rattle.std.specs.Prelude.{◌≤◌, vec_len, vec_capacity};

use crate::steps::{Step, Telling, Told};
use crate::versions::{VersionPlace, first_of};
use session_core::SiteCore;
use site_lives::Lives;
use site_lives::thing_codes::{END, GONE, LIFE, LINE, TOLD};
use tardis_base::{Found, MAX_PARENTS, MAX_WRITES, StateId};

/// Puts the bytes behind the others, where they don't pass the limit.
fn put(bytes: &[u8], limit: usize, body: &mut Vec<u8>)
    requires { limit ≤ vec_capacity body.old }
    ensures few { vec_len body.old ≤ limit → vec_len body.new ≤ limit }
    ensures capacity { vec_capacity body.old ≤ vec_capacity body.new }
{
    if body.len() <= limit && bytes.len() <= limit - body.len() {
        match body.extend_from_slice(bytes) {
            Ok(()) => {},
            Err(_) => unreachable!(),
        }
    }
}

fn put_u8(number: u8, limit: usize, body: &mut Vec<u8>)
    requires { limit ≤ vec_capacity body.old }
    ensures few { vec_len body.old ≤ limit → vec_len body.new ≤ limit }
    ensures capacity { vec_capacity body.old ≤ vec_capacity body.new }
{
    put(&[number], limit, body);
}

fn put_u16(number: u16, limit: usize, body: &mut Vec<u8>)
    requires { limit ≤ vec_capacity body.old }
    ensures few { vec_len body.old ≤ limit → vec_len body.new ≤ limit }
    ensures capacity { vec_capacity body.old ≤ vec_capacity body.new }
{
    put(&number.to_be_bytes(), limit, body);
}

fn put_u32(number: u32, limit: usize, body: &mut Vec<u8>)
    requires { limit ≤ vec_capacity body.old }
    ensures few { vec_len body.old ≤ limit → vec_len body.new ≤ limit }
    ensures capacity { vec_capacity body.old ≤ vec_capacity body.new }
{
    put(&number.to_be_bytes(), limit, body);
}

fn put_id(id: StateId, limit: usize, body: &mut Vec<u8>)
    requires { limit ≤ vec_capacity body.old }
    ensures few { vec_len body.old ≤ limit → vec_len body.new ≤ limit }
    ensures capacity { vec_capacity body.old ≤ vec_capacity body.new }
{
    put_u16(id.site, limit, body);
    put_u32(id.sequence, limit, body);
}

/// Puts the part of this step behind the bytes.
pub(crate) fn put_step(
    core: &SiteCore,
    telling: &Telling,
    versions: &[VersionPlace],
    step: Step,
    limit: usize,
    body: &mut Vec<u8>,
)
    requires { limit ≤ vec_capacity body.old }
    ensures few { vec_len body.old ≤ limit → vec_len body.new ≤ limit }
    ensures capacity { vec_capacity body.old ≤ vec_capacity body.new }
{
    match step {
        Step::Record(told) => put_record(core, telling, versions, &told, limit, body),
        Step::Line { site, count } => put_line(site, count, limit, body),
        Step::Gone(id) => put_gone(id, limit, body),
    }
}

fn put_line(site: u16, count: u32, limit: usize, body: &mut Vec<u8>)
    requires { limit ≤ vec_capacity body.old }
    ensures few { vec_len body.old ≤ limit → vec_len body.new ≤ limit }
    ensures capacity { vec_capacity body.old ≤ vec_capacity body.new }
{
    put_u8(LINE, limit, body);
    put_u16(site, limit, body);
    put_u32(count, limit, body);
}

fn put_gone(id: StateId, limit: usize, body: &mut Vec<u8>)
    requires { limit ≤ vec_capacity body.old }
    ensures few { vec_len body.old ≤ limit → vec_len body.new ≤ limit }
    ensures capacity { vec_capacity body.old ≤ vec_capacity body.new }
{
    put_u8(GONE, limit, body);
    put_id(id, limit, body);
}

/// Puts what is known of each site's floor.
pub(crate) fn put_end(core: &SiteCore, limit: usize, body: &mut Vec<u8>)
    requires { limit ≤ vec_capacity body.old }
    ensures few { vec_len body.old ≤ limit → vec_len body.new ≤ limit }
    ensures capacity { vec_capacity body.old ≤ vec_capacity body.new }
{
    let floors = core.book().floors();
    put_u8(END, limit, body);
    put_u8(u8::try_from(floors.len()).unwrap_or(u8::MAX), limit, body);
    for floor in floors {
        put_id(floor.place.state, limit, body);
        put_u32(floor.number, limit, body);
        put_u32(floor.stated, limit, body);
    }
}

/// Puts the life of the site.
pub(crate) fn put_life(lives: &Lives, site: u16, limit: usize, body: &mut Vec<u8>)
    requires { limit ≤ vec_capacity body.old }
    ensures few { vec_len body.old ≤ limit → vec_len body.new ≤ limit }
    ensures capacity { vec_capacity body.old ≤ vec_capacity body.new }
{
    if let Some(life) = lives.of(site) {
        put_u8(LIFE, limit, body);
        put_u16(site, limit, body);
        put(&life, limit, body);
    }
}

/// Puts the record of the state, with what is still read of it.
fn put_record(
    core: &SiteCore,
    telling: &Telling,
    versions: &[VersionPlace],
    told: &Told,
    limit: usize,
    body: &mut Vec<u8>,
)
    requires { limit ≤ vec_capacity body.old }
    ensures few { vec_len body.old ≤ limit → vec_len body.new ≤ limit }
    ensures capacity { vec_capacity body.old ≤ vec_capacity body.new }
{
    put_u8(TOLD, limit, body);
    put_id(told.id, limit, body);
    let parents = told.parents.min(MAX_PARENTS);
    put_u8(parents as u8, limit, body);
    for number in 0..parents {
        if let Some(parent) = telling.parent(told, number) {
            put_id(parent, limit, body);
        }
    }
    put_writes(core, telling, versions, told, limit, body);
}

/// Puts what is still read of the state, and that it deletes what it writes beside, by their keys.
fn put_writes(
    core: &SiteCore,
    telling: &Telling,
    versions: &[VersionPlace],
    told: &Told,
    limit: usize,
    body: &mut Vec<u8>,
)
    requires { limit ≤ vec_capacity body.old }
    ensures few { vec_len body.old ≤ limit → vec_len body.new ≤ limit }
    ensures capacity { vec_capacity body.old ≤ vec_capacity body.new }
{
    let first = first_of(versions, told.id);
    let own = count_from(versions, first, told.id);
    let count = own.saturating_add(told.keys).min(MAX_WRITES);
    put_u8(count as u8, limit, body);
    let mut read: usize = 0;
    let mut place = told.first_key;
    let mut beside = told.keys;
    for _write in 0..count {
        let next = if read < own {
            versions.get(first.saturating_add(read))
        } else {
            None
        };
        let key = if beside > 0 {
            telling.key_at(place)
        } else {
            None
        };
        if is_first(next, key) {
            read = read.saturating_add(1);
            put_read(core, next, limit, body);
        } else if let Some(key) = key {
            place = place.saturating_add(key.len()).saturating_add(1);
            beside = beside.saturating_sub(1);
            put_deleted(key, limit, body);
        }
    }
}

/// Whether the one is there, and its key stands before the other one, or there is no other.
fn is_first(one: Option<&VersionPlace>, other: Option<&[u8]>) -> bool {
    match (one, other) {
        (Some(one), Some(other)) => one.key.as_slice() < other,
        (Some(_), None) => true,
        (None, _) => false,
    }
}

fn put_read(core: &SiteCore, version: Option<&VersionPlace>, limit: usize, body: &mut Vec<u8>)
    requires { limit ≤ vec_capacity body.old }
    ensures few { vec_len body.old ≤ limit → vec_len body.new ≤ limit }
    ensures capacity { vec_capacity body.old ≤ vec_capacity body.new }
{
    if let Some(version) = version {
        put_version(core, version, limit, body);
    }
}

fn put_deleted(key: &[u8], limit: usize, body: &mut Vec<u8>)
    requires { limit ≤ vec_capacity body.old }
    ensures few { vec_len body.old ≤ limit → vec_len body.new ≤ limit }
    ensures capacity { vec_capacity body.old ≤ vec_capacity body.new }
{
    put_u8(u8::try_from(key.len()).unwrap_or(u8::MAX), limit, body);
    put(key, limit, body);
    put_u8(0, limit, body);
}

/// How many versions of the writer stand from this place on; at most 64 are counted.
fn count_from(versions: &[VersionPlace], first: usize, writer: StateId) -> usize {
    for number in 0..MAX_WRITES {
        match versions.get(first.saturating_add(number)) {
            Some(version) if version.writer == writer => {},
            _ => return number,
        }
    }
    MAX_WRITES
}

/// Puts a key, and what is read of it.
fn put_version(core: &SiteCore, version: &VersionPlace, limit: usize, body: &mut Vec<u8>)
    requires { limit ≤ vec_capacity body.old }
    ensures few { vec_len body.old ≤ limit → vec_len body.new ≤ limit }
    ensures capacity { vec_capacity body.old ≤ vec_capacity body.new }
{
    let store = core.store();
    if !store.dag().is_kept(version.slot) {
        return;
    }
    let key = version.key.as_slice();
    put_u8(key.len() as u8, limit, body);
    put(key, limit, body);
    match store.read_at(version.slot, &version.key) {
        Found::Value { value, .. } => {
            put_u8(1, limit, body);
            put_u16(value.as_slice().len() as u16, limit, body);
            put(value.as_slice(), limit, body);
        },
        _ => put_u8(0, limit, body),
    }
}
