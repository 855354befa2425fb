//! The room in which records wait that came before others that they need. The rule is stated in `docs/MODEL.md`.

ghost use Rattle.std.specs.Prelude.{◌≡◌, ◌<◌, ◌≤◌, [], length, slice_get, Some, IfOk};
ghost use Rattle.tardis_base.specs.Ids.{same_id};
ghost use Rattle.tardis_base.specs.Sizes.{most_waiting};
ghost use Rattle.plain_site.specs.WaitingRoom.{waits, hold, without};
ghost use Rattle.site_exchange.specs.Rooms.{handed_back, pushed_out, with_room};

use std::alloc::Global;
use std::marker::Model;
use tardis_base::{MAX_WAITING, NoMemory, Record, StateId};

/// The records that wait, in the order of their coming.
#[derive(Drop)]
pub struct WaitRoom {
    records: Vec<Record>,
}

impl Model for WaitRoom {
    ghost use Rattle.std.specs.Prelude.{List, ◌≤◌, vec_capacity, vec_len};
    ghost use Rattle.tardis_base.specs.declared.records.Record.{Record};
    ghost use Rattle.tardis_base.specs.Sizes.{most_waiting};

    ghost Value = { List Record };

    ghost view = { λ a. a.records.items };

    ghost invariant = { λ a. (vec_len a.records ≤ most_waiting) × (most_waiting ≤ vec_capacity a.records) };
}

impl WaitRoom {
    /// No records, and room for 256.
    pub fn new(alloc: Global) -> Result<WaitRoom, NoMemory>
        ensures { IfOk result (λ room. room ≡ []) }
    {
        Ok(WaitRoom {
            records: Vec::with_capacity(alloc, MAX_WAITING)?,
        })
    }

    /// Holds the record behind the others, unless one of its id waits. Where 256 waited the first of them goes. It takes no
    /// memory, and hands back what isn't kept. The cost grows with the number of records that wait.
    pub fn hold(&mut self, rec: Record) -> Option<Record>
        ensures held { self.new ≡ hold rec self.old }
        ensures back { result ≡ handed_back rec self.old }
    {
        if waits(self.records.as_slice(), rec.id) {
            return Some(rec);
        }
        let first = self.push_out();
        self.records.push_reserved(rec);
        first
    }

    /// How many records wait.
    pub fn len(&self) -> u16
        ensures count { result ≡ length self.now }
        ensures within { length self.now ≤ most_waiting }
    {
        self.records.len() as u16
    }

    /// The record at this place, counted from 0.
    pub fn at(&self, place: u16) -> &Record
        requires { place < length self.now }
        ensures { slice_get self.now place ≡ Some result.now }
    {
        &self.records[place as usize]
    }

    /// Takes the record at this place, counted from 0. The cost grows with the number of those behind it.
    pub fn take(&mut self, place: u16) -> Record
        requires { place < length self.old }
        ensures taken { slice_get self.old place ≡ Some result }
        ensures rest { self.new ≡ without place self.old }
    {
        self.records.remove(place as usize)
    }

    /// Takes the first record where as many wait as may.
    fn push_out(&mut self) -> Option<Record>
        ensures room { self.new ≡ with_room self.old }
        ensures first { result ≡ pushed_out self.old }
        ensures below { length self.new < most_waiting }
    {
        if self.records.len() == MAX_WAITING {
            Some(self.records.remove(0))
        } else {
            None
        }
    }
}

/// Whether one of these has this id.
fn waits(records: &[Record], id: StateId) -> bool
    ensures { result ≡ waits records.now id }
{
    for record in records {
        if is_same(id, record.id) {
            return true;
        }
    }
    false
}

fn is_same(a: StateId, b: StateId) -> bool
    ensures { result ≡ same_id a b }
{
    a == b
}
