//! What lasted, read back from bytes and taken back.

ghost use Rattle.std.specs.Prelude.{◌≡◌, true, length, List, Option, Ok, IsTrue, IfOk};
ghost use Rattle.wire_item.specs.Fronts.{front_of_code};
ghost use Rattle.plain_dag.specs.Floors.{Floor};
ghost use Rattle.site_checkpoint.specs.Loaded.{Loaded};
ghost use Rattle.site_checkpoint.specs.Ends.{floors_told};
ghost use Rattle.tardis_base.specs.declared.records.Item.TheVariants.{State};
ghost use Rattle.plain_site.specs.Rest.{News};
ghost use Rattle.session_core.specs.Machine.{opened_with};
ghost use Rattle.session_core.specs.Rests.{is_quiet};
ghost use Rattle.plain_checkpoint.specs.Checkpoints.{ToldState};
ghost use Rattle.rest_site.specs.Stands.{held_site, StandsForSome};
ghost use Rattle.site_lives.specs.Things.{OfSite, OfLives, OfCheckpoint, OfEnd, is_thing, thing_front, life_front};
ghost use Rattle.rest_site.specs.Takings.{lasting_of, state_front, promise_front, collection_front, new_life_front, new_row_front, IsRead, TakesThing};
ghost use Rattle.rest_site.specs.Takings.{told_front, line_front, gone_front, end_front, part_rows};
ghost use Rattle.wire_item.specs.Takings.{Takes};

use crate::floors::{Floors, read_floors};
use crate::loading::{Begin, end, load_gone, load_line, load_state};
use item_bytes::Reader;
use session_core::SiteCore;
use site_checkpoint::Checkpoint;
use site_lives::thing_codes::{COLLECTION, END, GONE, LIFE, LINE, PROMISE, ROW, STATE, TOLD};
use site_lives::{Lives, NewLife};
use std::alloc::Global;
use tardis_base::{Consent, NoMemory, Record, StateId};

/// What lasted of a request; a row of states; or a part of a checkpoint, or its end.
#[derive(Drop)]
pub(crate) enum Thing {
    State(Record),
    Promise(Consent),
    Collection(u32),
    Life(NewLife),
    Row { site: u16, count: u32 },
    Told(Record),
    Line { site: u16, count: u32 },
    Gone(StateId),
    End(Floors),
}

/// The thing at the front of the bytes that are left; None where none stands there.
pub(crate) fn read_thing(reader: &mut Reader<'_>, alloc: Global) -> Option<Result<Thing, NoMemory>>
    ensures { IsRead (thing_front reader.old) result reader.new }
{
    let code = reader.u8()?;
    match code {
        STATE => read_state(reader, alloc),
        PROMISE => read_promise(reader),
        COLLECTION => read_collection(reader),
        LIFE => read_life(reader),
        ROW => read_row(reader),
        _ => read_part(code, reader, alloc),
    }
}

/// The part of a checkpoint, or its end, that stands behind its code.
fn read_part(code: u8, reader: &mut Reader<'_>, alloc: Global) -> Option<Result<Thing, NoMemory>>
    ensures { IsRead (front_of_code code part_rows reader.old) result reader.new }
{
    match code {
        TOLD => read_told(reader, alloc),
        LINE => read_line(reader),
        GONE => read_gone(reader),
        END => read_end(reader, alloc),
        _ => None,
    }
}

/// A record.
fn read_state(reader: &mut Reader<'_>, alloc: Global) -> Option<Result<Thing, NoMemory>>
    ensures { IsRead (state_front reader.old) result reader.new }
{
    let record = reader.record(alloc)?;
    Some(state_of(record))
}

/// The record, where there was memory for it.
fn state_of(rec: Result<Record, NoMemory>) -> Result<Thing, NoMemory>
    ensures { (r : Record) → IfOk rec (λ s. s ≡ r) → IfOk result (λ thing. lasting_of thing ≡ OfSite (News (State r))) }
{
    Ok(Thing::State(rec?))
}

/// A promise.
fn read_promise(reader: &mut Reader<'_>) -> Option<Result<Thing, NoMemory>>
    ensures { IsRead (promise_front reader.old) result reader.new }
{
    let promise = reader.consent()?;
    Some(Ok(Thing::Promise(promise)))
}

/// How many states were collected, which is one at least.
fn read_collection(reader: &mut Reader<'_>) -> Option<Result<Thing, NoMemory>>
    ensures { IsRead (collection_front reader.old) result reader.new }
{
    let count = reader.u32()?;
    if count >= 1 {
        Some(Ok(Thing::Collection(count)))
    } else {
        None
    }
}

/// A life that was new.
fn read_life(reader: &mut Reader<'_>) -> Option<Result<Thing, NoMemory>>
    ensures { IsRead (new_life_front reader.old) result reader.new }
{
    let new = new_life(reader)?;
    Some(Ok(Thing::Life(new)))
}

/// A row: the number of its site, and how many states there are.
fn read_row(reader: &mut Reader<'_>) -> Option<Result<Thing, NoMemory>>
    ensures { IsRead (new_row_front reader.old) result reader.new }
{
    let site = reader.u16()?;
    let count = reader.u32()?;
    Some(Ok(Thing::Row { site, count }))
}

/// The record of a state that is told.
fn read_told(reader: &mut Reader<'_>, alloc: Global) -> Option<Result<Thing, NoMemory>>
    ensures { IsRead (told_front reader.old) result reader.new }
{
    let record = reader.record(alloc)?;
    Some(told_of(record))
}

/// The record, where there was memory for it, as that of a state that is told.
fn told_of(rec: Result<Record, NoMemory>) -> Result<Thing, NoMemory>
    ensures { (r : Record) → IfOk rec (λ s. s ≡ r) → IfOk result (λ thing. lasting_of thing ≡ OfCheckpoint (ToldState r)) }
{
    Ok(Thing::Told(rec?))
}

/// A line that is told: the number of its site, and how many states there are.
fn read_line(reader: &mut Reader<'_>) -> Option<Result<Thing, NoMemory>>
    ensures { IsRead (line_front reader.old) result reader.new }
{
    let site = reader.u16()?;
    let count = reader.u32()?;
    Some(Ok(Thing::Line { site, count }))
}

/// The state that is told to be gone.
fn read_gone(reader: &mut Reader<'_>) -> Option<Result<Thing, NoMemory>>
    ensures { IsRead (gone_front reader.old) result reader.new }
{
    let id = reader.id()?;
    Some(Ok(Thing::Gone(id)))
}

/// The floors at the end of a checkpoint.
fn read_end(reader: &mut Reader<'_>, alloc: Global) -> Option<Result<Thing, NoMemory>>
    ensures { IsRead (end_front reader.old) result reader.new }
{
    let floors = read_floors(reader, alloc)?;
    Some(end_of(floors))
}

/// The floors, where there was memory for them, as those at the end.
fn end_of(floors: Result<Floors, NoMemory>) -> Result<Thing, NoMemory>
    ensures { (fs : List Floor) → IfOk floors (λ gs. floors_told gs ≡ fs) → IfOk result (λ thing. lasting_of thing ≡ OfEnd fs) }
{
    Ok(Thing::End(floors?))
}

/// The number of its site, and the 16 bytes.
fn new_life(reader: &mut Reader<'_>) -> Option<NewLife>
    ensures { Takes life_front reader.old result reader.new }
{
    let number = reader.u16()?;
    let life = life_of(reader.bytes(16)?);
    Some(NewLife { number, life })
}

/// These 16 bytes.
fn life_of(bytes: &[u8]) -> [u8; 16]
    requires { length bytes.now ≡ 16 }
    ensures { result ≡ bytes.now }
{
    match bytes.as_array::<16>() {
        Some(life) => *life,
        None => [0; 16],
    }
}

/// Takes the thing back, where it fits.
pub(crate) fn take(
    core: &mut SiteCore,
    lives: &mut Lives,
    loading: &mut Option<Checkpoint>,
    begin: &Begin,
    thing: Thing,
) -> Result<bool, NoMemory>
    requires quiet { is_quiet core.old ≡ true }
    requires stands { StandsForSome core.old loading.old }
    requires valid { IsTrue (is_thing (lasting_of thing)) }
    ensures taken { TakesThing (held_site core.old lives.old loading.old) (held_site core.new lives.new loading.new) (lasting_of thing) result }
    ensures opening { opened_with core.new ≡ opened_with core.old }
{
    match thing {
        Thing::State(record) => core.take_record(record),
        Thing::Promise(promise) => Ok(core.take_promise(&promise)),
        Thing::Collection(count) => Ok(core.collect(count) == count),
        Thing::Life(new) => Ok(take_life(core, lives, &new)),
        Thing::Row { site, count } => core.take_row(site, count),
        Thing::Told(record) => load_state(core, loading, begin, record),
        Thing::Line { site, count } => load_line(core, loading, begin, site, count),
        Thing::Gone(id) => load_gone(core, loading, begin, id),
        Thing::End(floors) => end(core, loading, begin, &floors),
    }
}

/// Takes the life back, where it fits.
fn take_life(core: &SiteCore, lives: &mut Lives, new: &NewLife) -> bool
    ensures { (loading : Option Loaded) → TakesThing (held_site core.now lives.old loading) (held_site core.now lives.new loading) (OfLives new.now) (Ok result) }
{
    let own = core.book().own_site();
    let sites = core.store().dag().limits().sites;
    if lives.fits(own, sites, new) {
        lives.put(new);
        true
    } else {
        false
    }
}
