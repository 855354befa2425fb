//! A site takes back what lasted of an earlier one. The rules are stated in `docs/MODEL.md`, 'A site at rest'.

ghost use Rattle.std.specs.Prelude.{◌≡◌, ◌≤◌, true, length, is_none, Ok, IsTrue};
ghost use Rattle.std.specs.List.{list_all};
ghost use Rattle.state_dag.specs.Table.{is_listed};
ghost use Rattle.tardis_base.specs.declared.records.Item.TheVariants.{State, Promise};
ghost use Rattle.tardis_base.specs.Valid.{is_record};
ghost use Rattle.wire_item.specs.Valid.{is_consent};
ghost use Rattle.ceiling_book.specs.Places.{AreSlots};
ghost use Rattle.site_exchange.specs.Judgements.{reply_of, IsAddable};
ghost use Rattle.plain_site.specs.Rest.{News};
ghost use Rattle.session_core.specs.Stands.{StandsForSite};
ghost use Rattle.session_core.specs.Machine.{opened_with};
ghost use Rattle.site_answers.specs.Told.{is_applied};
ghost use Rattle.session_core.specs.Rests.{is_quiet, TakesBack, Collects, KeepsSound, IsWelcomeTo, HasFitWrites};
ghost use Rattle.session_core.specs.Rests.{TakesRow, MayGoOn, MovesFloors};

use crate::{Parts, SiteCore};
use ceiling_book::CeilingBook;
use site_answers::{is_applied, taken, untaken};
use site_exchange::{Judged, judge_nameless};
use tardis_base::{Consent, NoMemory, Record};

impl Parts {
    /// Takes the record into the history, an own one too, where nothing speaks against its delivery to a site of another number.
    fn take_record(&mut self, rec: Record) -> Result<bool, NoMemory>
        requires { IsTrue (is_record rec) }
        ensures { TakesBack self.old self.new (News (State rec)) result }
    {
        let welcome = self.welcomes(&rec)?;
        if welcome {
            taken(self.add(rec))
        } else {
            Ok(false)
        }
    }

    /// Whether nothing but want of room speaks against the record, were it another site's.
    fn welcomes(&self, rec: &Record) -> Result<bool, NoMemory>
        requires { IsTrue (is_record rec.now) }
        ensures welcome { IsWelcomeTo self.now rec.now result }
        ensures fit { result ≡ Ok true → IsAddable self.now.store.table rec.now }
    {
        match judge_nameless(&self.store, &self.book, rec) {
            Judged::Fit => self.has_fit_writes(rec),
            _ => Ok(false),
        }
    }

    /// Whether nothing speaks against the writes of the record, whose parents are kept.
    fn has_fit_writes(&self, rec: &Record) -> Result<bool, NoMemory>
        requires few { length rec.now.parents ≤ 8 }
        requires listed { IsTrue (list_all (is_listed self.now.store.table) rec.now.parents) }
        ensures { HasFitWrites self.now rec.now result }
    {
        let judged = self.judge_writes(rec)?;
        Ok(is_fit(&judged))
    }

    /// Takes the promise, an own one too, where nothing speaks against its delivery to a site of another number.
    fn take_promise(&mut self, promise: &Consent) -> bool
        requires valid { IsTrue (is_consent promise.now) }
        requires sound { KeepsSound self.old (News (Promise promise.now)) }
        ensures { TakesBack self.old self.new (News (Promise promise.now)) (Ok result) }
    {
        let end = self.book.take_consent_back(self.store.dag(), promise);
        is_applied(&end)
    }

    /// Takes so many further states of the site in a row, which write nothing, where that fits.
    fn take_row(&mut self, site: u16, count: u32) -> Result<bool, NoMemory>
        ensures { TakesRow self.old self.new site count result }
    {
        if !self.may_go_on() {
            return Ok(false);
        }
        if count == 0 {
            return Ok(self.move_floors(site));
        }
        match self.store.advance(site, count) {
            Ok(slot) => {
                let newest = self.store.dag().id_of(slot);
                self.book.set_floors(newest, slot);
                Ok(true)
            },
            Err(fault) => untaken(fault),
        }
    }

    /// Takes a row of no states, which may go on, of one of the sites: each floor is at the state that arrived last.
    fn move_floors(&mut self, site: u16) -> bool
        ensures { MovesFloors self.old self.new site result }
    {
        if site == 0 || site > self.store.dag().limits().sites {
            return false;
        }
        let slot = self.store.dag().last();
        let newest = self.store.dag().id_of(slot);
        self.book.set_floors(newest, slot);
        true
    }

    /// Whether no session is open and no floor was promised yet, each at or above the state that arrived last.
    fn may_go_on(&self) -> bool
        ensures { MayGoOn self.now result }
    {
        let dag = self.store.dag();
        self.book.sessions() == 0 && self.book.are_unpromised_above(dag, dag.last())
    }
}

/// Whether nothing speaks against the record.
fn is_fit(judged: &Judged) -> bool
    ensures { result ≡ is_none (reply_of judged.now) }
{
    match judged {
        Judged::Fit => true,
        _ => false,
    }
}

impl SiteCore {
    /// The book of its sessions and floors, to be read.
    pub fn book(&self) -> &CeilingBook
        ensures is { result.now ≡ self.now.book }
        ensures slots { AreSlots result.now self.now.store.table }
        ensures stands { StandsForSite self.now }
    {
        &self.parts.book
    }

    /// Whether no session is open and no record waits, so that the site is at rest.
    pub fn is_quiet(&self) -> bool
        ensures { result ≡ is_quiet self.now }
    {
        self.parts.book.sessions() == 0 && self.parts.waiting.len() == 0
    }

    /// Takes back a record that had arrived, an own one too. `false` where it doesn't fit: where it isn't the next of one of the
    /// sites, a parent isn't known or is closed, two are comparable, a conflict key of them isn't written, or there is no room.
    /// Then, and with no memory, all is as before.
    ///
    /// The cost is that of a delivery. The record is moved.
    pub fn take_record(&mut self, rec: Record) -> Result<bool, NoMemory>
        requires { IsTrue (is_record rec) }
        ensures taken { TakesBack self.old self.new (News (State rec)) result }
        ensures opening { opened_with self.new ≡ opened_with self.old }
    {
        self.parts.take_record(rec)
    }

    /// Takes back the promise of a floor, an own one too. `false` where it doesn't fit: where there is no such site, its number
    /// isn't above the one that is known, it comes before its states, or the site's floor isn't at or above the new one. Then all
    /// is as before. It takes no memory.
    ///
    /// An own floor has to leave the ceilings of open sessions below it: so none is to be open, or the caller knows that they are.
    /// The cost is that of a delivery.
    pub fn take_promise(&mut self, promise: &Consent) -> bool
        requires valid { IsTrue (is_consent promise.now) }
        requires sound { KeepsSound self.old (News (Promise promise.now)) }
        ensures taken { TakesBack self.old self.new (News (Promise promise.now)) (Ok result) }
        ensures opening { opened_with self.new ≡ opened_with self.old }
    {
        self.parts.take_promise(promise)
    }

    /// Takes back a row: so many further states of one site, which write nothing, each below the one before it and the first
    /// below the state that arrived last. Each but the last of them is collected, and the one that had arrived last with them;
    /// every floor is at the one that has arrived last then, also where the row has no state in it. `false` where it doesn't fit:
    /// where there is no such site, its numbers would not fit 32 bits, a session is open, a floor was promised, or one isn't at
    /// or above the state that arrived last. Then, and with no memory, all is as before.
    ///
    /// What a row means is stated in `docs/MODEL.md`, 'Rows'. The cost doesn't grow with the number of states: it is that of
    /// `RecordStore::advance`, and of an ancestry for each site.
    pub fn take_row(&mut self, site: u16, count: u32) -> Result<bool, NoMemory>
        ensures taken { TakesRow self.old self.new site count result }
        ensures opening { opened_with self.new ≡ opened_with self.old }
    {
        self.parts.take_row(site, count)
    }

    /// Takes back that so many states were collected: collects up to `count` closed states, the collectable one that arrived last
    /// first, and answers how many. Where these are fewer, no so many were there to be collected. It takes no memory.
    ///
    /// The cost is that of a Tidy.
    pub fn collect(&mut self, count: u32) -> u32
        ensures collected { Collects self.old self.new count result }
        ensures opening { opened_with self.new ≡ opened_with self.old }
    {
        self.parts.collect(count)
    }
}
