//! What a book tells and lends of itself, beside its sessions: how many of these may be open, where the root is, and the floors.

ghost use Rattle.std.specs.Prelude.{◌≡◌};
ghost use Rattle.ceiling_book.specs.Book.{IsBook};

use crate::CeilingBook;
use crate::parts::KnownFloor;
use tardis_base::Slot;

impl CeilingBook {
    /// How many sessions may be open.
    pub fn max_sessions(&self) -> u16
        ensures is { result ≡ self.now.max_sessions }
    {
        self.max_sessions
    }

    /// The slot at which the root is kept, or what stands in for it.
    pub fn root(&self) -> Slot
        ensures is { result ≡ self.now.root }
    {
        self.root
    }

    /// The floor of each site, in the order of the sites' numbers. They are lent, in constant time.
    pub fn floors(&self) -> &[KnownFloor]
        ensures is { result.now ≡ self.now.floors }
        ensures book { IsBook self.now }
    {
        let _ = &self.own; // for the proof alone
        self.floors.as_slice()
    }
}
