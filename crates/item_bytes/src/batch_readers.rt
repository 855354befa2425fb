//! Reading items and batches from the front of bytes.

ghost use Rattle.std.specs.Prelude.{◌≡◌, ℕ, List, true, map, nat_le, nat_lt, IfOk};
ghost use Rattle.std.specs.Option.{option_map_or};
ghost use Rattle.tardis_base.specs.declared.records.Consent.{Consent};
ghost use Rattle.tardis_base.specs.declared.records.Record.{Record};
ghost use Rattle.tardis_base.specs.Sizes.{most_sites};
ghost use Rattle.wire_item.specs.Fronts.{only_if, times};
ghost use Rattle.wire_item.specs.Readings.{batch_front, consent_front, consents_front, item_front, record_front, records_front};
ghost use Rattle.wire_item.specs.Takings.{Makes};
ghost use Rattle.wire_item.specs.Valid.{are_ascending_numbers};

use crate::readers::Reader;
use crate::thing_readers::both;
use std::alloc::Global;
use tardis_base::{Batch, ConsentList, Item, MAX_SITES, NoMemory, Record, RecordList, pushed};

impl<'a> Reader<'a> {
    pub fn item(&mut self, alloc: Global) -> Option<Result<Item, NoMemory>>
        ensures { Makes item_front self.old result self.new }
    {
        let kind = self.u8()?;
        if kind == 1 {
            let record = self.record(alloc)?;
            return Some(state_item(record));
        }
        if kind != 2 {
            return None;
        }
        let consent = self.consent()?;
        Some(Ok(Item::Promise(consent)))
    }

    pub fn batch(&mut self, alloc: Global) -> Option<Result<Batch, NoMemory>>
        ensures { Makes batch_front self.old result self.new }
    {
        let records = self.records(alloc)?;
        let consents = self.consents(alloc)?;
        Some(batch_of_parts(records, consents))
    }

    fn records(&mut self, alloc: Global) -> Option<Result<RecordList, NoMemory>>
        ensures { Makes records_front self.old result self.new }
    {
        let count = self.u16()?;
        self.counted_records(alloc, count)
    }

    fn counted_records(&mut self, alloc: Global, count: u16) -> Option<Result<RecordList, NoMemory>>
        ensures { Makes (times record_front count) self.old result self.new }
    {
        let mut records = Ok(RecordList::new(alloc));
        for _place in 0..count {
            let record = self.record(alloc)?;
            records = pushed(records, record);
        }
        Some(records)
    }

    fn consents(&mut self, alloc: Global) -> Option<Result<ConsentList, NoMemory>>
        ensures { Makes consents_front self.old result self.new }
    {
        let count = self.u8()?;
        if is_consent_count(count) {
            self.ascending_consents(alloc, count)
        } else {
            None
        }
    }

    fn ascending_consents(
        &mut self,
        alloc: Global,
        count: u8,
    ) -> Option<Result<ConsentList, NoMemory>>
        ensures { Makes (only_if (λ (cs : List Consent). are_ascending_numbers (map (λ c. c.site) cs)) (times consent_front count)) self.old result self.new }
    {
        let mut consents = Ok(ConsentList::new(alloc));
        let mut last = None;
        for _place in 0..count {
            let consent = self.consent()?;
            if !site_follows(last, consent.site) {
                return None;
            }
            consents = pushed(consents, Ok(consent));
            last = Some(consent.site);
        }
        Some(consents)
    }
}

fn is_consent_count(count: u8) -> bool
    ensures { result ≡ nat_le count most_sites }
{
    u16::from(count) <= MAX_SITES
}

/// Whether the site may stand behind this one in ascending order.
fn site_follows(last: Option<u16>, site: u16) -> bool
    ensures { result ≡ option_map_or (λ before. nat_lt before site) last true }
{
    match last {
        Some(before) => before < site,
        None => true,
    }
}

fn state_item(state: Result<Record, NoMemory>) -> Result<Item, NoMemory>
    ensures { (r : Record) → IfOk state (λ x. x ≡ r) → IfOk result (λ item. item ≡ Item.State r) }
{
    Ok(Item::State(state?))
}

fn batch_of_parts(
    records: Result<RecordList, NoMemory>,
    consents: Result<ConsentList, NoMemory>,
) -> Result<Batch, NoMemory>
    ensures { (rs : List Record) (cs : List Consent) → IfOk records (λ l. l ≡ rs) → IfOk consents (λ l. l ≡ cs)
        → IfOk result (λ b. b ≡ record { records = rs; consents = cs }) }
{
    let (records, consents) = both(records, consents)?;
    Ok(Batch { records, consents })
}
