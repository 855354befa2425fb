//! Delivering the items of an answer.

ghost use Rattle.std.specs.Prelude.{◌≡◌, ◌<◌, ◌≤◌, ◌==◌, ℕ, List, ◌∷◌, [], map, take, drop, length, Some, slice_get, IsTrue};
ghost use Rattle.tardis_base.specs.Sizes.{longest_frame};
ghost use Rattle.tardis_base.specs.declared.records.Item.{Item};
ghost use Rattle.tardis_base.specs.Valid.{is_record};
ghost use Rattle.wire_item.specs.Valid.{is_batch, is_consent};
ghost use Rattle.site_peers.specs.Asking.{items_of, delivery, any_applied, refused_of};
ghost use Rattle.site_peers.specs.Turns.{AnswersFrom};

use crate::asks::{ask, either, is_applied, lacks_room};
use item_bytes::{write_consent, write_record};
use rest_machine::Settling;
use std::marker::Model;
use tardis_base::{Batch, Consent, Record, ReplyBuf};
use wire_item::spellings_have_their_lengths;
use wire_talk::request_codes::DELIVER;

/// At most so many items of one peer are delivered in a turn.
pub const ITEMS_A_TURN: usize = 64;

/// What came of items that were delivered: whether one was applied, and how many were refused for want of room.
#[derive(Clone, Copy)]
pub(crate) struct Outcome {
    pub(crate) useful: bool,
    pub(crate) refused: u32,
}

/// The items of an answer that are left to be delivered. It is seen as these.
#[derive(Drop)]
pub struct Delivery {
    batch: Batch,
    place: usize,
    request: ReplyBuf,
}

impl Model for Delivery {
    ghost use Rattle.std.specs.Prelude.{List, ◌≤◌, length, drop, IsTrue};
    ghost use Rattle.tardis_base.specs.declared.records.Item.{Item};
    ghost use Rattle.wire_item.specs.Valid.{is_batch};
    ghost use Rattle.site_peers.specs.Asking.{items_of};

    ghost Value = { List Item };

    ghost view = { λ d. drop d.place (items_of d.batch) };

    ghost invariant = { λ d. IsTrue (is_batch d.batch) × (d.place ≤ length (items_of d.batch)) };
}

impl Delivery {
    /// All items of a batch. The buffer is for the requests.
    pub(crate) fn new(batch: Batch, request: ReplyBuf) -> Delivery
        requires { IsTrue (is_batch batch) }
        ensures { result ≡ items_of batch }
    {
        Delivery {
            batch,
            place: 0,
            request,
        }
    }

    /// How many items are left.
    pub fn len(&self) -> usize
        ensures { result ≡ length self.now }
    {
        self.batch.records.len() + self.batch.consents.len() - self.place
    }

    /// Whether none is left.
    pub fn is_empty(&self) -> bool
        ensures { result ≡ (length self.now == 0) }
    {
        self.len() == 0
    }

    /// Delivers the first items that are left, in order and each once, up to 64, and answers what came of them.
    pub(crate) fn deliver_some<M: Settling>(
        &mut self,
        machine: &mut M,
        reply: &mut ReplyBuf,
    ) -> Outcome
        ensures left { self.new ≡ drop ITEMS_A_TURN self.old }
        ensures delivered { (replies : List (List ℕ)) × (AnswersFrom M.plain (M.stands machine.old) (M.stands machine.new)
            (map delivery (take ITEMS_A_TURN self.old)) replies × ((result.useful ≡ any_applied replies) × (result.refused ≡ refused_of replies))) }
        ensures opening { M.opening machine.new ≡ M.opening machine.old }
    {
        let count = self.len().min(ITEMS_A_TURN);
        let mut useful = false;
        let mut refused: u32 = 0;
        for _item in 0..count {
            self.deliver_one(machine, reply);
            let applied = is_applied(reply.bytes());
            useful = either(useful, applied);
            let more = lacks_room(reply.bytes());
            refused += more as u32;
        }
        Outcome { useful, refused }
    }

    /// Delivers the first item that is left.
    fn deliver_one<M: Settling>(&mut self, machine: &mut M, reply: &mut ReplyBuf)
        requires some { 0 < length self.old }
        ensures delivered { (item : Item) × ((self.old ≡ item ∷ self.new)
            × AnswersFrom M.plain (M.stands machine.old) (M.stands machine.new) (delivery item ∷ []) (reply.new ∷ [])) }
        ensures opening { M.opening machine.new ≡ M.opening machine.old }
    {
        put_delivery(&self.batch, self.place, &mut self.request);
        ask(machine, self.request.bytes(), reply);
        self.place += 1;
    }
}

/// Writes the request to deliver the item at a place of a batch, in place of the bytes from before.
fn put_delivery(batch: &Batch, place: usize, out: &mut ReplyBuf)
    requires valid { IsTrue (is_batch batch.now) }
    requires there { place < length (items_of batch.now) }
    ensures { (item : Item) → slice_get (items_of batch.now) place ≡ Some item → out.new ≡ delivery item }
{
    let records = batch.records.len();
    if place < records {
        put_record(batch.records.at(place), out);
    } else {
        put_consent(batch.consents.at(place - records), out);
    }
}

/// Writes the request to deliver a record.
fn put_record(rec: &Record, out: &mut ReplyBuf)
    requires { IsTrue (is_record rec.now) }
    ensures { out.new ≡ delivery (Item.State rec.now) }
{
    spellings_have_their_lengths();
    out.clear();
    out.push_byte(DELIVER);
    out.push_byte(1);
    write_record(rec, out);
}

/// Writes the request to deliver a consent.
fn put_consent(promise: &Consent, out: &mut ReplyBuf)
    requires { IsTrue (is_consent promise.now) }
    ensures { out.new ≡ delivery (Item.Promise promise.now) }
{
    spellings_have_their_lengths();
    out.clear();
    out.push_byte(DELIVER);
    out.push_byte(2);
    write_consent(promise, out);
}
