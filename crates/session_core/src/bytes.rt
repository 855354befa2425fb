//! The site as a machine over bytes.

ghost use Rattle.std.specs.Prelude.{◌≡◌, Some, None, [], true, false, IsTrue, IsOk, IfOk, OnErr};
ghost use Rattle.std.specs.List.{list_all};
ghost use Rattle.std.specs.Option.{option_map_or};
ghost use Rattle.tardis_base.specs.declared.requests.Request.{Request};
ghost use Rattle.tardis_base.specs.Valid.{is_key};
ghost use Rattle.state_dag.specs.Table.{is_slot};
ghost use Rattle.version_list.specs.Reads.{found};
ghost use Rattle.wire_talk.specs.RequestReadings.{request_of};
ghost use Rattle.wire_talk.specs.Valid.{is_commit, is_request};
ghost use Rattle.plain_site.specs.Site.{Site};
ghost use Rattle.plain_site.specs.Sound.{IsSound};
ghost use Rattle.plain_site.specs.Step.{step, step_over_bytes, is_sure};
ghost use Rattle.session_core.specs.Stands.{CoreStands, StandsForSite};
ghost use Rattle.session_core.specs.Guards.{HasTxn};
ghost use Rattle.plain_dag.specs.Entries.{entry_of};
ghost use Rattle.merge_txn.specs.declared.Txn.{Txn};
ghost use Rattle.talk_bytes.specs.Lent.{request_lent};
ghost use Rattle.txn_book.specs.Txns.{slot_read};
ghost use Rattle.session_core.specs.Gives.{Gives};
ghost use Rattle.session_core.specs.Machine.{SiteStands, GivesBytes, IsTold, opened_with, writing, Wrote};

use crate::transactions::{NotedRead, read_noted};
use crate::{Parts, SiteCore};
use merge_txn::{MergeTxn, Txn};
use site_answers::{
    Stop, asked, asked_lent, give, give_end, give_found, give_refused, keep_room, own_write,
};
use std::alloc::Global;
use talk_bytes::{LentRequest, write_begun, write_done};
use tardis_base::{
    Begin, EndFlags, Key, Machine, NoMemory, Over, Refusal, Reply, ReplyBuf, Request, StateList,
    Value, Write,
};

/// The key of these bytes, which are copied.
fn key_of(alloc: Global, bytes: &[u8]) -> Result<Key, NoMemory>
    ensures { IfOk result (λ key. key ≡ bytes.now) }
{
    match Key::new(alloc, bytes) {
        Ok(key) => Ok(key),
        Err(_) => Err(NoMemory),
    }
}

/// The value of these bytes, which are copied.
fn value_of(alloc: Global, bytes: &[u8]) -> Result<Value, NoMemory>
    ensures { IfOk result (λ value. value ≡ bytes.now) }
{
    match Value::new(alloc, bytes) {
        Ok(value) => Ok(value),
        Err(_) => Err(NoMemory),
    }
}

impl Parts {
    /// Reads the key in the actor's transaction, notes the read, and writes the reply into the empty buffer; after a stop
    /// that is still empty. The transaction is looked up once where the read is noted, the key is moved, and the value isn't
    /// copied.
    fn get_into(&mut self, actor: u16, key: Key, out: &mut ReplyBuf) -> Result<(), Stop>
        requires key { IsTrue (is_key key) }
        requires empty { out.old ≡ [] }
        requires stands { StandsForSite self.old }
        ensures { Wrote self.old self.new actor (Request.Get key) result out.new }
    {
        match read_noted(&mut self.txns, &self.store, actor, key) {
            NotedRead::Found(found) => {
                give_found(found, out);
                Ok(())
            },
            NotedRead::Fault(fault) => Err(Stop::from(fault)),
            NotedRead::Other(key) => self.get_unnoted(actor, &key, out),
        }
    }

    /// Reads the key, where that isn't noted: it is written in the transaction, or this is a merge.
    fn get_unnoted(&self, actor: u16, key: &Key, out: &mut ReplyBuf) -> Result<(), Stop>
        requires other { (t : Txn) → entry_of actor self.now.txns ≡ Some t → slot_read key.now t ≡ None }
        requires key { IsTrue (is_key key.now) }
        requires empty { out.old ≡ [] }
        requires stands { StandsForSite self.now }
        ensures { Wrote self.now self.now actor (Request.Get key.now) result out.new }
    {
        match self.open_txn(actor)? {
            Txn::Single(single) => match single.writes.get(key) {
                Some(write) => {
                    give_found(own_write(write), out);
                    Ok(())
                },
                None => unreachable!(),
            },
            Txn::Merge(merge) => self.get_over_into(actor, merge, key, out),
        }
    }

    /// Reads the key in a merge, and writes the reply into the empty buffer.
    fn get_over_into(
        &self,
        actor: u16,
        merge: &MergeTxn,
        key: &Key,
        out: &mut ReplyBuf,
    ) -> Result<(), Stop>
        requires slots { IsTrue (list_all (is_slot self.now.store.table) merge.now.slots) }
        requires key { IsTrue (is_key key.now) }
        requires empty { out.old ≡ [] }
        requires stands { StandsForSite self.now }
        requires found { (site : Site) → CoreStands self.now site → IsSound site → HasTxn self.now.store.table site actor (Txn.Merge merge.now) }
        ensures { Wrote self.now self.now actor (Request.Get key.now) result out.new }
    {
        match self.found_over(merge, key) {
            Over::Found(found) => {
                give_found(found, out);
                Ok(())
            },
            Over::Conflict => Err(Stop::Refused(Refusal::ConflictKey { key: key.copy()? })),
        }
    }
}

impl Parts {
    /// Answers the request, and writes the reply into the empty buffer; after a stop that is still empty.
    fn serve_lent(
        &mut self,
        actor: u16,
        lent: LentRequest<'_>,
        told: &mut StateList,
        out: &mut ReplyBuf,
    ) -> Result<(), Stop>
        requires valid { IsTrue (is_request (request_lent lent)) }
        requires empty { out.old ≡ [] }
        requires stands { StandsForSite self.old }
        ensures { Wrote self.old self.new actor (request_lent lent.entry) result out.new }
    {
        match lent {
            LentRequest::Begin { begin } => self.begin_into(actor, &begin, out),
            LentRequest::Get { key } => self.get_lent(actor, key, out),
            LentRequest::Put { key, value } => self.put_lent(actor, key, value, out),
            LentRequest::Delete { key } => self.delete_lent(actor, key, out),
            LentRequest::Commit { flags, k } => self.commit_into(actor, flags, k, told, out),
        }
    }

    /// Reads the key of these bytes, and writes the reply into the empty buffer.
    fn get_lent(&mut self, actor: u16, key: &[u8], out: &mut ReplyBuf) -> Result<(), Stop>
        requires key { IsTrue (is_key key.now) }
        requires empty { out.old ≡ [] }
        requires stands { StandsForSite self.old }
        ensures { Wrote self.old self.new actor (Request.Get key.now) result out.new }
    {
        let key = key_of(self.alloc, key)?;
        self.get_into(actor, key, out)
    }

    /// Puts the value of these bytes to the key of these, and writes the reply into the empty buffer.
    fn put_lent(
        &mut self,
        actor: u16,
        key: &[u8],
        value: &[u8],
        out: &mut ReplyBuf,
    ) -> Result<(), Stop>
        requires { out.old ≡ [] }
        ensures { Wrote self.old self.new actor (Request.Put key.now value.now) result out.new }
    {
        let key = key_of(self.alloc, key)?;
        let value = value_of(self.alloc, value)?;
        self.put_into(actor, key, Write::Put(value), out)
    }

    /// Deletes the key of these bytes, and writes the reply into the empty buffer.
    fn delete_lent(&mut self, actor: u16, key: &[u8], out: &mut ReplyBuf) -> Result<(), Stop>
        requires { out.old ≡ [] }
        ensures { Wrote self.old self.new actor (Request.Delete key.now) result out.new }
    {
        let key = key_of(self.alloc, key)?;
        self.put_into(actor, key, Write::Delete, out)
    }

    /// Begins a transaction, and writes the reply into the empty buffer.
    fn begin_into(&mut self, actor: u16, begin: &Begin, out: &mut ReplyBuf) -> Result<(), Stop>
        requires { out.old ≡ [] }
        ensures { Wrote self.old self.new actor (Request.Begin begin.now) result out.new }
    {
        let state = self.begin(actor, begin)?;
        write_begun(state, out);
        Ok(())
    }

    /// Takes the write into the actor's transaction, and writes the reply into the empty buffer.
    fn put_into(
        &mut self,
        actor: u16,
        key: Key,
        write: Write,
        out: &mut ReplyBuf,
    ) -> Result<(), Stop>
        requires { out.old ≡ [] }
        ensures { Wrote self.old self.new actor (writing key write) result out.new }
    {
        match self.put(actor, key, write) {
            Ok(()) => {
                write_done(out);
                Ok(())
            },
            Err(stop) => Err(stop),
        }
    }

    /// Commits the actor's transaction, and writes the reply into the empty buffer. The parents are told in the memory of
    /// `told`, which is given back.
    fn commit_into(
        &mut self,
        actor: u16,
        flags: EndFlags,
        k: u16,
        told: &mut StateList,
        out: &mut ReplyBuf,
    ) -> Result<(), Stop>
        requires valid { IsTrue (is_commit flags k) }
        requires empty { out.old ≡ [] }
        requires stands { StandsForSite self.old }
        ensures { Wrote self.old self.new actor (Request.Commit flags k) result out.new }
    {
        let end = self.commit(actor, flags, k, told)?;
        give_end(&end, out);
        keep_room(told, end);
        Ok(())
    }
}

impl SiteCore {
    /// Writes the reply to the actor's request, which is done. Neither the request nor a value that is read is copied.
    fn reply_lent(
        &mut self,
        actor: u16,
        lent: LentRequest<'_>,
        out: &mut ReplyBuf,
    ) -> Result<(), NoMemory>
        requires valid { IsTrue (is_request (request_lent lent)) }
        requires empty { out.old ≡ [] }
        ensures given { (site : Site) → SiteStands self.old site
            → GivesBytes (SiteStands self.new) (step site actor (request_lent lent.entry)) site result out.new }
        ensures empty { OnErr result (out.new ≡ []) }
        ensures sure { IsTrue (is_sure (request_lent lent.entry)) → IsOk result }
        ensures opening { opened_with self.new ≡ opened_with self.old }
    {
        match self.parts.serve_lent(actor, lent, &mut self.told, out) {
            Ok(()) => Ok(()),
            Err(Stop::Refused(refusal)) => {
                give_refused(refusal, out);
                Ok(())
            },
            Err(Stop::NoMemory) => Err(NoMemory),
        }
    }

    /// Writes the reply to the actor's request, which is done.
    fn reply(&mut self, actor: u16, request: Request, out: &mut ReplyBuf) -> Result<(), NoMemory>
        requires valid { IsTrue (is_request request) }
        requires empty { out.old ≡ [] }
        ensures given { (site : Site) → SiteStands self.old site → GivesBytes (SiteStands self.new) (step site actor request) site result out.new }
        ensures sure { IsTrue (is_sure request) → IsOk result }
        ensures opening { opened_with self.new ≡ opened_with self.old }
    {
        let reply = self.answer_owned(actor, request)?;
        give(&reply, out);
        drop(reply);
        Ok(())
    }

    /// The reply to the actor's request, which is done. A record that is delivered is moved in.
    fn answer_owned(&mut self, actor: u16, request: Request) -> Result<Reply, NoMemory>
        requires { IsTrue (is_request request) }
        ensures given { (site : Site) → SiteStands self.old site → Gives (SiteStands self.new) (step site actor request) site result }
        ensures told { IfOk result (λ reply. IsTold reply) }
        ensures sure { IsTrue (is_sure request) → IsOk result }
        ensures opening { opened_with self.new ≡ opened_with self.old }
    {
        match request {
            Request::Deliver { item } => self.deliver(item),
            request => self.step(actor, &request),
        }
    }
}

impl SiteCore {
    /// Writes the reply to the request that the bytes spell, which is done, or to bytes that spell none.
    fn reply_to_bytes(
        &mut self,
        actor: u16,
        request: &[u8],
        out: &mut ReplyBuf,
    ) -> Result<(), NoMemory>
        requires empty { out.old ≡ [] }
        ensures given { (site : Site) → SiteStands self.old site
            → GivesBytes (SiteStands self.new) (step_over_bytes site (actor, request.now)) site result out.new }
        ensures empty { OnErr result (out.new ≡ []) }
        ensures sure { option_map_or is_sure (request_of request.now) false ≡ true → IsOk result }
        ensures opening { opened_with self.new ≡ opened_with self.old }
    {
        match asked(self.parts.alloc, request)? {
            Some(request) => self.reply(actor, request, out),
            None => {
                give_refused(Refusal::Malformed, out);
                Ok(())
            },
        }
    }
}

impl Machine for SiteCore {
    ghost use Rattle.plain_site.specs.Site.{Site};
    ghost use Rattle.plain_site.specs.Step.{site_machine};
    ghost use Rattle.session_core.specs.Machine.{SiteStands, opened_with};

    ghost Plain = { Site };

    ghost plain = { site_machine };

    ghost stands = { SiteStands };

    ghost opening = { opened_with };

    fn act(&mut self, actor: u16, request: &[u8], out: &mut ReplyBuf) -> Result<(), NoMemory> {
        out.clear();
        match asked_lent(request) {
            Some(lent) => self.reply_lent(actor, lent, out),
            None => self.reply_to_bytes(actor, request, out),
        }
    }
}
