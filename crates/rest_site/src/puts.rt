//! What lasts of a request is put behind a log.

ghost use Rattle.std.specs.Prelude.{◌≡◌, ◌+◌, ◌≤◌, ◌++◌, length, option_map, option_to_list, vec_len, vec_capacity};
ghost use Rattle.tardis_base.specs.declared.records.Item.TheVariants.{Promise};
ghost use Rattle.rest_machine.specs.Rests.{most_lasting};
ghost use Rattle.plain_site.specs.Site.{Site};
ghost use Rattle.plain_site.specs.Rest.{News, lasting_between, collection};
ghost use Rattle.plain_site.specs.RestSpellings.{lasting_spelling, all_spelling};
ghost use Rattle.session_core.specs.Machine.{SiteStands};
ghost use Rattle.site_lives.specs.Things.{OfLives, all_spellings};
ghost use Rattle.rest_site.specs.Notes.{IsNoted, Follows, HasActed};

use crate::notes::{Noted, raised};
use record_spelling::{put_consent, put_newest, put_u8, put_u32};
use session_core::SiteCore;
use site_lives::NewLife;
use site_lives::thing_codes::{COLLECTION, LIFE, PROMISE, STATE};
use tardis_base::Consent;
use wire_item::spellings_have_their_lengths;

/// Puts what lasts of the request that led from the noted site to this one: the newest record, where there is one more state; else the
/// promise whose number rose; else how many more states are collected.
pub(crate) fn put_lasting(core: &SiteCore, before: &Noted, log: &mut Vec<u8>)
    requires acted { HasActed before.now core.now }
    requires room { vec_len log.old + most_lasting ≤ vec_capacity log.old }
    ensures items { (old behind : Site) → IsNoted before.now old → SiteStands core.now behind → Follows old behind
        → log.new.items ≡ log.old.items ++ all_spelling (option_to_list (lasting_between old behind)) }
    ensures few { vec_len log.new ≤ vec_len log.old + most_lasting }
    ensures capacity { vec_capacity log.old ≤ vec_capacity log.new }
{
    spellings_have_their_lengths();
    if before.known < core.store().dag().known() {
        put_u8(STATE, log);
        put_newest(core.store(), log);
        return;
    }
    match raised(core, before) {
        Some(promise) => put_promise(&promise, log),
        None => put_collection(before.kept - core.store().dag().kept(), log),
    }
}

/// Puts the promise.
fn put_promise(promise: &Consent, log: &mut Vec<u8>)
    requires { vec_len log.old + 17 ≤ vec_capacity log.old }
    ensures items { log.new.items ≡ log.old.items ++ lasting_spelling (News (Promise promise.now)) }
    ensures len { vec_len log.new ≤ vec_len log.old + 17 }
    ensures capacity { vec_capacity log.old ≤ vec_capacity log.new }
{
    put_u8(PROMISE, log);
    put_consent(promise, log);
}

/// Puts how many states were collected, if any were.
fn put_collection(count: u32, log: &mut Vec<u8>)
    requires { vec_len log.old + 5 ≤ vec_capacity log.old }
    ensures items { log.new.items ≡ log.old.items ++ all_spelling (option_to_list (collection count)) }
    ensures len { vec_len log.new ≤ vec_len log.old + 5 }
    ensures capacity { vec_capacity log.old ≤ vec_capacity log.new }
{
    if count != 0 {
        put_u8(COLLECTION, log);
        put_u32(count, log);
    }
}

/// Puts the life that is new, if there is one.
pub(crate) fn put_life(new: &Option<NewLife>, log: &mut Vec<u8>)
    requires { vec_len log.old + 19 ≤ vec_capacity log.old }
    ensures items { log.new.items ≡ log.old.items ++ all_spellings (option_to_list (option_map OfLives new.now)) }
    ensures len { vec_len log.new ≤ vec_len log.old + 19 }
    ensures capacity { vec_capacity log.old ≤ vec_capacity log.new }
{
    if let Some(new) = new {
        put_u8(LIFE, log);
        put_bytes(&new.number.to_be_bytes(), log);
        put_bytes(&new.life, log);
    }
}

/// Puts the bytes behind the others, as a whole.
fn put_bytes(bytes: &[u8], log: &mut Vec<u8>)
    requires { vec_len log.old + length bytes.now ≤ vec_capacity log.old }
    ensures items { log.new.items ≡ log.old.items ++ bytes.now }
    ensures len { vec_len log.new ≡ vec_len log.old + length bytes.now }
    ensures capacity { vec_capacity log.old ≤ vec_capacity log.new }
{
    match log.extend_from_slice(bytes) {
        Ok(()) => {},
        Err(_) => unreachable!(),
    }
}
