//! Why a request stops before it is done, and the three guards of requests: an open session, with a transaction, and without
//! one.

ghost use Rattle.std.specs.Prelude.{◌≡◌, None, Some, IsTrue, IfOk, IfErr, OnOk};
ghost use Rattle.plain_dag.specs.Entries.{entry_of};
ghost use Rattle.ceiling_book.specs.Book.{is_open};
ghost use Rattle.plain_site.specs.Site.{Site};
ghost use Rattle.plain_site.specs.Sound.{IsSound};
ghost use Rattle.session_core.specs.Stands.{CoreStands};
ghost use Rattle.session_core.specs.Guards.{HasTxn, RefusesAll, RefusesTxns, RefusesBegins};
ghost use Rattle.session_core.specs.Txns.{has_slots};

use crate::Parts;
use merge_txn::Txn;
use tardis_base::Refusal;

impl Parts {
    /// Refused where no session of the actor is open (NotOpen).
    pub(crate) fn session(&self, actor: u16) -> Result<(), Refusal>
        ensures open { OnOk result (IsTrue (is_open self.now.book actor)) }
        ensures refused { (site : Site) → CoreStands self.now site → IfErr result (λ refusal. RefusesAll site actor refusal) }
    {
        if self.book.is_open(actor) {
            Ok(())
        } else {
            Err(Refusal::NotOpen)
        }
    }

    /// Refused where no session of the actor is open (NotOpen), and where it has a transaction (TxnOpen).
    pub(crate) fn no_txn(&self, actor: u16) -> Result<(), Refusal>
        ensures open { OnOk result (IsTrue (is_open self.now.book actor)) }
        ensures none { OnOk result (entry_of actor self.now.txns ≡ None) }
        ensures refused { (site : Site) → CoreStands self.now site → IfErr result (λ refusal. RefusesBegins site actor refusal) }
    {
        self.session(actor)?;
        if self.txns.is_open(actor) {
            Err(Refusal::TxnOpen)
        } else {
            Ok(())
        }
    }

    /// The transaction of the actor's session, looked up once. Refused where no session of the actor is open (NotOpen), and
    /// where it has no transaction (NoTxn).
    pub(crate) fn open_txn(&self, actor: u16) -> Result<&Txn, Refusal>
        ensures found { IfOk result (λ txn. entry_of actor self.now.txns ≡ Some txn.now) }
        ensures slots { IfOk result (λ txn. IsTrue (has_slots self.now.store.table txn.now)) }
        ensures stands { (site : Site) → CoreStands self.now site → IsSound site → IfOk result (λ txn. HasTxn self.now.store.table site actor txn.now) }
        ensures refused { (site : Site) → CoreStands self.now site → IfErr result (λ refusal. RefusesTxns site actor refusal) }
    {
        match self.txns.get(actor) {
            Some(txn) => Ok(txn),
            None => {
                self.session(actor)?;
                Err(Refusal::NoTxn)
            },
        }
    }
}
