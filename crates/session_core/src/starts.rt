//! A site at rest is made from a store and a book.

ghost use Rattle.std.specs.Prelude.{◌≡◌, IfOk};
ghost use Rattle.plain_site.specs.Site.{Site, opening};
ghost use Rattle.session_core.specs.Stands.{CoreStands};
ghost use Rattle.session_core.specs.Machine.{SiteStands, opened_with};
ghost use Rattle.session_core.specs.Together.{RestTogether};

use crate::{Parts, SiteCore};
use ceiling_book::CeilingBook;
use record_store::RecordStore;
use site_exchange::WaitRoom;
use std::alloc::Global;
use tardis_base::{NoMemory, StateList};
use txn_book::TxnBook;

impl SiteCore {
    /// The site at rest that stands on this store and this book: no session, and nothing that waits. The room for what waits is
    /// taken here; where there is no memory for it, store and book are let go.
    ///
    /// The cost doesn't grow with what they keep.
    pub fn resting(
        alloc: Global,
        store: RecordStore,
        book: CeilingBook,
    ) -> Result<SiteCore, NoMemory>
        requires { (site : Site) × RestTogether store book site }
        ensures stands { IfOk result (λ core. (site : Site) → RestTogether store book site → SiteStands core site) }
        ensures opening { IfOk result (λ core. opened_with core ≡ opening store.table.limits book.own) }
    {
        let parts = Parts::resting(alloc, store, book)?;
        let told = StateList::new(alloc);
        Ok(SiteCore { parts, told })
    }
}

impl Parts {
    /// Those of the site at rest: this store and this book, no open transaction, and nothing that waits.
    pub(crate) fn resting(
        alloc: Global,
        store: RecordStore,
        book: CeilingBook,
    ) -> Result<Parts, NoMemory>
        requires { (site : Site) × RestTogether store book site }
        ensures store { IfOk result (λ core. core.store ≡ store) }
        ensures book { IfOk result (λ core. core.book ≡ book) }
        ensures stands { IfOk result (λ core. (site : Site) → RestTogether store book site → CoreStands core site) }
    {
        match WaitRoom::new(alloc) {
            Ok(waiting) => {
                let txns = TxnBook::new(alloc);
                Ok(Parts {
                    alloc,
                    store,
                    book,
                    txns,
                    waiting,
                })
            },
            Err(NoMemory) => {
                drop(store);
                drop(book);
                Err(NoMemory)
            },
        }
    }
}
