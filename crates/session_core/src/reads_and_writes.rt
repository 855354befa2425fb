//! Transactions read and write.

ghost use Rattle.std.specs.Prelude.{None, Some, is_some, IsTrue};
ghost use Rattle.std.specs.List.{list_all};
ghost use Rattle.tardis_base.specs.Ids.{root};
ghost use Rattle.tardis_base.specs.Keys.{write_of};
ghost use Rattle.state_dag.specs.Table.{is_slot};
ghost use Rattle.version_list.specs.Reads.{found};
ghost use Rattle.plain_dag.specs.Entries.{entry_of};
ghost use Rattle.plain_site.specs.Site.{Site};
ghost use Rattle.plain_site.specs.Answers.{with_txn};
ghost use Rattle.plain_site.specs.Reads.{get, set_key, get_for as got_for};
ghost use Rattle.session_core.specs.Stands.{CoreStands};
ghost use Rattle.tardis_base.specs.declared.replies.Reply.{Reply};
ghost use Rattle.session_core.specs.Gives.{Answers, Does, GivesOrStops};
ghost use Rattle.session_core.specs.Guards.{HasTxn};
ghost use Rattle.session_core.specs.Machine.{NotesRead, ReadsAt, reading};
ghost use Rattle.session_core.specs.Reads.{ReadsAs};
ghost use Rattle.session_core.specs.Txns.{IsNamed};

use crate::Parts;
use conflict_keys::value_over;
use merge_txn::{MergeTxn, Txn};
use site_answers::{Stop, own_write, reply_of, slot_among};
use tardis_base::{Found, Key, NoMemory, Over, Refusal, Reply, Slot, StateId, Write};

impl Parts {
    /// Reads the key in the actor's transaction: its own write first, with the root as its writer; then what is read at its
    /// state, and the read is noted; or over the states of a merge, which notes none. The value is a copy.
    ///
    /// Refused where no session is open (NotOpen), it has no transaction (NoTxn), 256 other keys were read (TooMany), or
    /// the states of a merge conflict in the key (ConflictKey).
    ///
    /// The cost is that of a search of the own writes; where the key isn't among them, also that of
    /// `RecordStore::read_at` and of `Txn::note_read`, or for a merge of `conflict_keys::value_over`.
    pub(crate) fn get(&mut self, actor: u16, key: &Key) -> Result<Reply, Stop>
        ensures { Answers self.old self.new result (λ site. with_txn site actor (λ s t. get site actor t key.now)) }
    {
        match self.open_txn(actor)? {
            Txn::Single(single) => match single.writes.get(key) {
                Some(write) => Ok(reply_of(own_write(write))?),
                None => {
                    let slot = single.slot;
                    self.get_at(actor, slot, key)
                },
            },
            Txn::Merge(merge) => self.get_over(actor, merge, key),
        }
    }

    /// Reads the key at this slot, that of the actor's transaction, a single one that hasn't written to the key, and notes
    /// the read. The value is a copy.
    fn get_at(&mut self, actor: u16, slot: Slot, key: &Key) -> Result<Reply, Stop>
        requires slot { IsTrue (is_slot self.old.store.table slot) }
        requires open { IsTrue (is_some (entry_of actor self.old.txns)) }
        ensures { ReadsAt self.old self.new actor slot key.now result }
    {
        let reply = reply_of(self.store.read_at(slot, key))?;
        match self.note_copy(actor, key) {
            Ok(()) => Ok(reply),
            Err(stop) => {
                drop(reply);
                Err(stop)
            },
        }
    }

    /// Notes a copy of the key, which the actor's transaction, a single one that hasn't written to it, reads.
    fn note_copy(&mut self, actor: u16, key: &Key) -> Result<(), Stop>
        requires { IsTrue (is_some (entry_of actor self.old.txns)) }
        ensures { NotesRead self.old self.new actor key.now result }
    {
        let key = key.copy()?;
        let noted = self.txns.note_read(actor, key).unwrap();
        match noted {
            Ok(()) => Ok(()),
            Err(fault) => Err(Stop::from(fault)),
        }
    }

    /// Reads the key in a merge. The value is a copy.
    fn get_over(&self, actor: u16, merge: &MergeTxn, key: &Key) -> Result<Reply, Stop>
        requires { IsTrue (list_all (is_slot self.now.store.table) merge.now.slots) }
        ensures { (site : Site) → CoreStands self.now site → HasTxn self.now.store.table site actor (Txn.Merge merge.now)
            → GivesOrStops (CoreStands self.now) (reading site actor key.now) site result }
    {
        match self.found_over(merge, key) {
            Over::Found(found) => Ok(reply_of(found)?),
            Over::Conflict => Err(Stop::Refused(Refusal::ConflictKey { key: key.copy()? })),
        }
    }

    /// What a merge reads of the key: its own write first; then what is read over its states, which are joined once.
    pub(crate) fn found_over<'a>(&'a self, merge: &'a MergeTxn, key: &Key) -> Over<'a>
        requires { IsTrue (list_all (is_slot self.now.store.table) merge.now.slots) }
        ensures { (site : Site) → CoreStands self.now site → IsNamed self.now.store.table (Txn.Merge merge.now)
            → ReadsAs site.dag merge.now.states key.now (write_of key.now merge.now.writes) result }
    {
        match merge.writes.get(key) {
            Some(write) => Over::Found(own_write(write)),
            None => value_over(&self.store, merge.slots.as_slice(), key),
        }
    }

    /// Takes the write into the actor's transaction, in place of what it wrote to the key.
    ///
    /// Refused where no session is open (NotOpen), it has no transaction (NoTxn), or 64 other keys are written (TooMany).
    /// The cost is that of `Txn::put`, and of looking the transaction up; key and value are moved in.
    pub(crate) fn put(&mut self, actor: u16, key: Key, write: Write) -> Result<(), Stop>
        ensures { Does (λ _. Reply.Done) self.old self.new result (λ site. with_txn site actor (λ s t. set_key site actor t key write)) }
    {
        match self.txns.put(actor, key, write) {
            Some(Ok(())) => Ok(()),
            Some(Err(fault)) => Err(Stop::from(fault)),
            None => {
                self.session(actor)?;
                Err(Stop::Refused(Refusal::NoTxn))
            },
        }
    }

    /// What is read of the key at one of the states of the actor's merge, its own writes aside. The value is a copy.
    ///
    /// Refused as `merge_of` says, and where the merge doesn't read that state (NotRead).
    pub(crate) fn get_for(&self, actor: u16, key: &Key, state: StateId) -> Result<Reply, Stop>
        ensures { Answers self.now self.now result (λ site. with_txn site actor (λ s t. got_for site t key.now state)) }
    {
        let merge = self.merge_of(actor)?;
        match slot_among(self.store.dag(), merge.slots.as_slice(), state) {
            Some(slot) => Ok(reply_of(self.store.read_at(slot, key))?),
            None => Err(Stop::Refused(Refusal::NotRead { state })),
        }
    }
}
