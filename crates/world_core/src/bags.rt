//! The bag: batches that sites gave, and their items.

ghost use Rattle.std.specs.Prelude.{◌≡◌, ◌+◌, ◌≤◌, ◌∷◌, ◌++◌, [], List, false, length, slice_get, option_map, IsTrue, IsOk, IfSome, OnOk, OnErr};
ghost use Rattle.std.specs.List.{list_all};
ghost use Rattle.tardis_base.specs.Sizes.{longest_frame};
ghost use Rattle.tardis_base.specs.declared.records.Batch.{Batch};
ghost use Rattle.tardis_base.specs.declared.requests.Request.{Request};
ghost use Rattle.tardis_base.specs.declared.replies.Reply.{Reply};
ghost use Rattle.tardis_base.specs.declared.replies.Reply.TheVariants.{Batch as BatchIs};
ghost use Rattle.wire_item.specs.Spellings.{batch_spelling};
ghost use Rattle.wire_item.specs.Valid.{is_item, is_batch};
ghost use Rattle.wire_talk.specs.Spellings.{request_spelling, reply_spelling};
ghost use Rattle.wire_talk.specs.Valid.{is_refusal};
ghost use Rattle.plain_world.specs.Worlds.{items, item_at};
ghost use Rattle.world_core.specs.Bags.{IsBag};
ghost use Rattle.world_core.specs.Kept.{item_of};
ghost use Rattle.world_core.specs.Gives.{Joined, is_batch_reply};

use item_bytes::{read_batch, write_consent, write_record};
use std::alloc::Global;
use talk_bytes::write_reply;
use tardis_base::{Batch, Consent, ListOf, NoMemory, Record, Refusal, Reply, ReplyBuf};
use wire_item::{spellings_have_their_lengths, things_have_one_spelling};
use wire_talk::reply_codes::BATCH;
use wire_talk::request_codes::DELIVER;

/// The most batches that the bag holds.
const MOST_BATCHES: usize = 1_024;

/// An item of a batch, where it is kept.
#[derive(Clone, Copy)]
pub(crate) enum Kept<'a> {
    State(&'a Record),
    Promise(&'a Consent),
}

/// The item of this number of the batch of this number; None where there is none.
pub(crate) fn kept_at(bag: &ListOf<Batch>, batch: u32, item: u32) -> Option<Kept<'_>>
    requires { IsTrue (list_all is_batch bag.now) }
    ensures item { option_map item_of result ≡ item_at bag.now batch item }
    ensures valid { IfSome result (λ kept. IsTrue (is_item (item_of kept))) }
{
    let place = batch as usize;
    if place < bag.len() {
        kept_in(bag.at(place), item as usize)
    } else {
        None
    }
}

/// The item of this number of a batch: first come the records, then the consents.
fn kept_in(batch: &Batch, item: usize) -> Option<Kept<'_>>
    ensures item { option_map item_of result ≡ slice_get (items batch.now) item }
    ensures valid { IsTrue (is_batch batch.now) → IfSome result (λ kept. IsTrue (is_item (item_of kept))) }
{
    let records = batch.records.len();
    if item < records {
        return Some(Kept::State(batch.records.at(item)));
    }
    let place = item - records;
    if place < batch.consents.len() {
        Some(Kept::Promise(batch.consents.at(place)))
    } else {
        None
    }
}

/// Writes the request to deliver the item, in place of the bytes from before.
pub(crate) fn write_deliver(item: &Kept<'_>, out: &mut ReplyBuf)
    requires { IsTrue (is_item (item_of item.now)) }
    ensures { out.new ≡ request_spelling (Request.Deliver (item_of item.now)) }
{
    spellings_have_their_lengths();
    out.clear();
    out.push_byte(DELIVER);
    match item {
        Kept::State(state) => {
            out.push_byte(1);
            write_record(state, out);
        }
        Kept::Promise(promise) => {
            out.push_byte(2);
            write_consent(promise, out);
        }
    }
}

/// Writes a refusal in place of the bytes from before.
pub(crate) fn refuse(refusal: Refusal, out: &mut ReplyBuf)
    requires valid { IsTrue (is_refusal refusal) }
    requires short { length (reply_spelling (Reply.Refused refusal)) ≤ longest_frame }
    ensures { out.new ≡ reply_spelling (Reply.Refused refusal) }
{
    out.clear();
    write_reply(&Reply::Refused { refusal }, out);
}

/// Puts a batch that was replied at the end of the bag. Where the bag is full, the reply is that, in its place; where there is
/// no memory, it is none.
pub(crate) fn gather(
    alloc: Global,
    bag: &mut ListOf<Batch>,
    out: &mut ReplyBuf,
) -> Result<(), NoMemory>
    ensures other { (reply : Reply) → out.old ≡ reply_spelling reply → is_batch_reply reply ≡ false → IsOk result × (bag.new ≡ bag.old) × (out.new ≡ out.old) }
    ensures batch { (batch : Batch) → out.old ≡ reply_spelling (BatchIs batch) → IsTrue (is_batch batch) → Joined bag.old bag.new batch result out.new }
    ensures bag { IsBag bag.old → IsBag bag.new }
{
    let [BATCH, spelled @ ..] = out.bytes() else {
        return Ok(());
    };
    if bag.len() == MOST_BATCHES {
        refuse(Refusal::BagFull { batches: 1_024 }, out);
        return Ok(());
    }
    match keep(alloc, bag, spelled) {
        Ok(()) => Ok(()),
        Err(NoMemory) => {
            out.clear();
            Err(NoMemory)
        }
    }
}

/// Puts the batch that is spelled at the end of the bag.
fn keep(alloc: Global, bag: &mut ListOf<Batch>, spelled: &[u8]) -> Result<(), NoMemory>
    ensures kept { OnOk result ((batch : Batch) → spelled.now ≡ batch_spelling batch → IsTrue (is_batch batch) → bag.new ≡ bag.old ++ batch ∷ []) }
    ensures same { OnErr result (bag.new ≡ bag.old) }
    ensures valid { IsTrue (list_all is_batch bag.old) → IsTrue (list_all is_batch bag.new) }
    ensures more { length bag.new ≤ length bag.old + 1 }
{
    things_have_one_spelling();
    match read_batch(alloc, spelled) {
        Ok(batch) => bag.push(batch),
        Err(_) => Err(NoMemory),
    }
}
