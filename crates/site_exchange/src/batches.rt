//! What a site gives another that asks for news. The rule is stated in `docs/MODEL.md`.

ghost use Rattle.std.specs.Prelude.{◌≡◌, ◌≤◌, ◌-◌, List, Some, IfSome, length, slice_get, unwrap_or, sum_by, IsTrue, IfOk};
ghost use Rattle.tardis_base.specs.declared.ids.StateId.{StateId};
ghost use Rattle.tardis_base.specs.declared.records.Record.{Record};
ghost use Rattle.tardis_base.specs.Sizes.{most_news};
ghost use Rattle.wire_item.specs.Spellings.{record_spelling};
ghost use Rattle.wire_item.specs.Lengths.{key_write_length};
ghost use Rattle.state_dag.specs.Table.{id_at, is_slot};
ghost use Rattle.state_dag.specs.Stands.{Stands};
ghost use Rattle.record_store.specs.Stands.{StoreStands};
ghost use Rattle.record_store.specs.Answers.{StandsAlone};
ghost use Rattle.ceiling_book.specs.Places.{AreSlots};
ghost use Rattle.plain_site.specs.Site.{Site};
ghost use Rattle.plain_site.specs.Exchange.{batch_for, consents_from};
ghost use Rattle.site_exchange.specs.Stands.{BookStands};
ghost use Rattle.site_exchange.specs.News.{is_news, news_for, left_of, GivenIn};

use ceiling_book::CeilingBook;
use item_bytes::key_write_len;
use record_store::RecordStore;
use state_dag::StateDag;
use std::alloc::Global;
use tardis_base::{
    Batch, Consent, ConsentList, Key, MAX_NEWS, NoMemory, Record, RecordList, Slot, Write,
};

/// The news for whoever has these counts, one for each site, as far as it fits a batch, and all consents.
///
/// The kept states are walked once, in arrival order, up to the first whose record doesn't fit. The cost of each grows with the
/// number of sites, as so many ancestries are asked where its count is too small, and for each record that is given with its
/// parents and writes, as `RecordStore::record_of` says.
pub fn batch_for(
    alloc: Global,
    store: &RecordStore,
    book: &CeilingBook,
    counts: &[u32],
) -> Result<Batch, NoMemory>
    requires { AreSlots book.now store.now.table }
    ensures { (site : Site) → StoreStands store.now site.dag site.collected → BookStands store.now.table book.now site
        → IfOk result (λ batch. batch ≡ batch_for site counts.now) }
{
    let records = news_for(alloc, store, book, counts)?;
    let consents = consents_of(alloc, store.dag(), book)?;
    Ok(Batch { records, consents })
}

/// The records of the news for whoever has these counts, in arrival order, as far as they fit.
fn news_for(
    alloc: Global,
    store: &RecordStore,
    book: &CeilingBook,
    counts: &[u32],
) -> Result<RecordList, NoMemory>
    requires { AreSlots book.now store.now.table }
    ensures { (site : Site) → StoreStands store.now site.dag site.collected → BookStands store.now.table book.now site
        → IfOk result (λ news. news ≡ news_for site counts.now) }
{
    let mut news = RecordList::new(alloc);
    let mut room = MAX_NEWS;
    for slot in store.dag().kept_slots() {
        if is_news(store.dag(), book, counts, *slot) {
            match give(store, *slot, room, &mut news)? {
                Some(left) => room = left,
                None => return Ok(news),
            }
        }
    }
    Ok(news)
}

/// Puts the record of the state of this slot behind the news, if it has at most so many bytes, and answers how many are left.
fn give(
    store: &RecordStore,
    slot: Slot,
    room: usize,
    news: &mut RecordList,
) -> Result<Option<usize>, NoMemory>
    requires slot { IsTrue (is_slot store.now.table slot) }
    requires room { room ≤ most_news }
    ensures given { (rs : List Record) (ks : List StateId) → StoreStands store.now rs ks → (x : StateId) → id_at store.now.table slot ≡ Some x
        → StandsAlone rs ks x → IfOk result (λ left. GivenIn rs x room news.old news.new left) }
    ensures within { IfOk result (λ left. IfSome left (λ n. n ≤ most_news)) }
{
    let record = store.record_of(slot)?;
    match room_behind(&record, room) {
        Some(left) => {
            news.push(record)?;
            Ok(Some(left))
        },
        None => Ok(None),
    }
}

/// Whether the state of the slot is news for whoever has these counts.
fn is_news(dag: &StateDag, book: &CeilingBook, counts: &[u32], slot: Slot) -> bool
    requires slots { AreSlots book.now dag.now }
    requires slot { IsTrue (is_slot dag.now slot) }
    ensures { (site : Site) → Stands dag.now site.dag site.collected → BookStands dag.now book.now site → (x : StateId)
        → id_at dag.now slot ≡ Some x → result ≡ is_news site counts.now x }
{
    let id = dag.id_of(slot);
    count_for(counts, id.site) < id.sequence && !book.above_all_floors(dag, slot)
}

/// The count for this site; 0 where there is none.
fn count_for(counts: &[u32], site: u16) -> u32
    ensures { result ≡ unwrap_or (slice_get counts.now (site - 1)) 0 }
{
    match counts.get((site as usize).saturating_sub(1)) {
        Some(count) => *count,
        None => 0,
    }
}

/// How many of so many bytes are left behind the record's spelling; None exactly where that has more.
fn room_behind(rec: &Record, room: usize) -> Option<usize>
    requires { room ≤ most_news }
    ensures { result ≡ left_of room (length (record_spelling rec.now)) }
{
    let parents = rec.parents.len();
    if parents > room {
        return None;
    }
    let head = 8 + 6 * parents;
    if head > room {
        return None;
    }
    room_behind_writes(rec.writes.as_slice(), room - head)
}

/// How many of so many bytes are left behind the spellings of these writes; None exactly where they have more.
fn room_behind_writes(writes: &[(Key, Write)], room: usize) -> Option<usize>
    ensures { result ≡ left_of room (sum_by key_write_length writes.now) }
{
    let mut left = room;
    for write in writes {
        let size = key_write_len(write) as usize;
        if size > left {
            return None;
        }
        left -= size;
    }
    Some(left)
}

/// The consents with a number above 0, by site.
fn consents_of(alloc: Global, dag: &StateDag, book: &CeilingBook) -> Result<ConsentList, NoMemory>
    requires { AreSlots book.now dag.now }
    ensures { (site : Site) → Stands dag.now site.dag site.collected → BookStands dag.now book.now site
        → IfOk result (λ consents. consents ≡ consents_from 1 site.floors) }
{
    let mut consents = ConsentList::new(alloc);
    for place in 0..book.sites() {
        let (slot, number, count) = book.floor(place + 1);
        if number != 0 {
            consents.push(Consent {
                site: place + 1,
                number,
                floor: dag.id_of(slot),
                count,
            })?;
        }
    }
    Ok(consents)
}
