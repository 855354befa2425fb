//! Reading bytes that spell one thing and nothing else.
//!
//! How things are spelled is stated in `docs/FORMATS.md`. The cost grows with the number of bytes.

ghost use Rattle.std.specs.Prelude.{◌≡◌, ◌↔◌, None, Err, IfOk};
ghost use Rattle.wire_item.specs.Readings.{batch_of, consent_of, item_of, record_of};
ghost use Rattle.wire_item.specs.Spelled.{SpellsBatch, SpellsConsent, SpellsItem, SpellsRecord};
ghost use Rattle.wire_item.specs.Takings.{whole_of};

use crate::readers::Reader;
use std::alloc::Global;
use tardis_base::{Batch, Consent, Item, NoMemory, ReadFault, Record};

/// The record that the bytes spell.
pub fn read_record(alloc: Global, bytes: &[u8]) -> Result<Record, ReadFault>
    ensures spelled { IfOk result (λ r. SpellsRecord bytes.now r) }
    ensures malformed { (result ≡ Err ReadFault.Malformed) ↔ (record_of bytes.now ≡ None) }
{
    let mut reader = Reader::new(bytes);
    let taken = reader.record(alloc);
    whole(taken, reader.is_done())
}

/// The consent that the bytes spell. It takes no memory.
pub fn read_consent(bytes: &[u8]) -> Result<Consent, ReadFault>
    ensures spelled { IfOk result (λ consent. SpellsConsent bytes.now consent) }
    ensures malformed { (result ≡ Err ReadFault.Malformed) ↔ (consent_of bytes.now ≡ None) }
    ensures sure { result ≡ Err ReadFault.NoMemory → ⊥ }
{
    let mut reader = Reader::new(bytes);
    match reader.consent() {
        Some(consent) => whole(Some(Ok(consent)), reader.is_done()),
        None => Err(ReadFault::Malformed),
    }
}

/// The item that the bytes spell.
pub fn read_item(alloc: Global, bytes: &[u8]) -> Result<Item, ReadFault>
    ensures spelled { IfOk result (λ item. SpellsItem bytes.now item) }
    ensures malformed { (result ≡ Err ReadFault.Malformed) ↔ (item_of bytes.now ≡ None) }
{
    let mut reader = Reader::new(bytes);
    let taken = reader.item(alloc);
    whole(taken, reader.is_done())
}

/// The batch that the bytes spell.
pub fn read_batch(alloc: Global, bytes: &[u8]) -> Result<Batch, ReadFault>
    ensures spelled { IfOk result (λ batch. SpellsBatch bytes.now batch) }
    ensures malformed { (result ≡ Err ReadFault.Malformed) ↔ (batch_of bytes.now ≡ None) }
{
    let mut reader = Reader::new(bytes);
    let taken = reader.batch(alloc);
    whole(taken, reader.is_done())
}

/// The thing that was read, where nothing is left behind it.
pub fn whole<T: Drop>(thing: Option<Result<T, NoMemory>>, is_done: bool) -> Result<T, ReadFault>
    ensures { result ≡ whole_of thing is_done }
{
    match thing {
        Some(thing) => {
            if is_done {
                Ok(thing?)
            } else {
                Err(ReadFault::Malformed)
            }
        },
        None => Err(ReadFault::Malformed),
    }
}
