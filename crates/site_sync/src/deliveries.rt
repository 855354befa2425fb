//! Delivering the items of a batch.

ghost use Rattle.std.specs.Prelude.{◌≡◌, ◌<◌, ◌≤◌, length, Some, slice_get, IsTrue};
ghost use Rattle.tardis_base.specs.Sizes.{longest_request};
ghost use Rattle.tardis_base.specs.declared.records.Item.{Item};
ghost use Rattle.tardis_base.specs.Valid.{is_record};
ghost use Rattle.wire_item.specs.Valid.{is_batch, is_consent};
ghost use Rattle.dag_lock.specs.Named.{lock_id, start_of};
ghost use Rattle.site_sync.specs.Asking.{items, delivery};
ghost use Rattle.site_sync.specs.Steps.{GoesOn, StepsOnce};
ghost use Rattle.site_sync.specs.Delivering.{Delivers};

use crate::ends::SyncEnd;
use crate::tallies::Tally;
use dag_lock::{DagLock, Pass};
use item_bytes::{write_consent, write_record};
use std::sync::Wait;
use tardis_base::{Batch, Consent, Machine, Record, ReplyBuf};
use trail_log::Acted;
use wire_item::spellings_have_their_lengths;
use wire_talk::request_codes::DELIVER;

/// The actor of all that isn't asked by a session.
pub(crate) const NOBODY: u16 = 0;

/// Delivers the items of a batch in order, up to the first that isn't answered.
pub(crate) fn deliver_all<M: Machine, R: Wait>(
    rt: &R,
    lock: &DagLock<M>,
    pass: Pass,
    batch: &Batch,
    request: &mut ReplyBuf,
    reply: &mut ReplyBuf,
) -> (Pass, SyncEnd)
    requires lock { pass.lock ≡ lock_id lock.now }
    requires valid { IsTrue (is_batch batch.now) }
    ensures goes_on { GoesOn pass result.0 }
    ensures delivers { Delivers M.opening M.plain (start_of lock.now) (items batch.now) pass result.0 result.1 }
{
    let mut pass = pass;
    let mut tally = Tally::new();
    let count = batch.records.len() + batch.consents.len();
    for place in 0..count {
        let (next, acted) = deliver_one(rt, lock, pass, batch, place, request, reply);
        match acted {
            Acted::Done => tally = tally.with(reply.bytes()),
            Acted::TrailFull { bytes } => return (next, SyncEnd::TrailFull { bytes }),
            Acted::NoMemory => return (next, SyncEnd::NoMemory),
        }
        pass = next;
    }
    (pass, tally.end())
}

/// Delivers the item at a place of a batch.
fn deliver_one<M: Machine, R: Wait>(
    rt: &R,
    lock: &DagLock<M>,
    pass: Pass,
    batch: &Batch,
    place: usize,
    request: &mut ReplyBuf,
    reply: &mut ReplyBuf,
) -> (Pass, Acted)
    requires lock { pass.lock ≡ lock_id lock.now }
    requires valid { IsTrue (is_batch batch.now) }
    requires there { place < length (items batch.now) }
    ensures { (item : Item) → slice_get (items batch.now) place ≡ Some item
        → StepsOnce M.opening M.plain (start_of lock.now) pass (delivery item) reply.new result.0 result.1 }
{
    put_delivery(batch, place, request);
    lock.step(rt, pass, NOBODY, request.bytes(), reply)
}

/// Writes the request to deliver the item at a place of a batch, in place of the bytes from before.
fn put_delivery(batch: &Batch, place: usize, out: &mut ReplyBuf)
    requires valid { IsTrue (is_batch batch.now) }
    requires there { place < length (items batch.now) }
    ensures delivers { (item : Item) → slice_get (items batch.now) place ≡ Some item → out.new ≡ (delivery item).1 }
    ensures fits { length out.new ≤ longest_request }
{
    let records = batch.records.len();
    if place < records {
        put_record(batch.records.at(place), out);
    } else {
        put_consent(batch.consents.at(place - records), out);
    }
}

/// Writes the request to deliver a record.
fn put_record(rec: &Record, out: &mut ReplyBuf)
    requires { IsTrue (is_record rec.now) }
    ensures delivers { out.new ≡ (delivery (Item.State rec.now)).1 }
    ensures fits { length out.new ≤ longest_request }
{
    spellings_have_their_lengths();
    out.clear();
    out.push_byte(DELIVER);
    out.push_byte(1);
    write_record(rec, out);
}

/// Writes the request to deliver a consent.
fn put_consent(promise: &Consent, out: &mut ReplyBuf)
    requires { IsTrue (is_consent promise.now) }
    ensures delivers { out.new ≡ (delivery (Item.Promise promise.now)).1 }
    ensures fits { length out.new ≤ longest_request }
{
    spellings_have_their_lengths();
    out.clear();
    out.push_byte(DELIVER);
    out.push_byte(2);
    write_consent(promise, out);
}
