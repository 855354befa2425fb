//! What a site may be asked.

ghost use Rattle.std.specs.Prelude.{⊤, [], ◌∷◌, codes};

use crate::byte_types::{Key, Value};
use crate::ids::StateId;
use crate::lists::{ByteList, CountList, StateList};
use crate::records::Item;
use bitflags::{Flag, Flags, bitflag_items};

/// Where a transaction begins.
#[derive(Clone, Copy, PartialEq, Eq)]
pub enum Begin {
    Any,
    Ancestor,
    Parent,
    At(StateId),
}

/// The end constraints of a commit.
#[derive(Clone, Copy, PartialEq, Eq)]
pub struct EndFlags(pub u8);

bitflag_items! {
    impl EndFlags: u8 {
        const SER = 1;
        const SI = 2;
        const NB = 4;
        const KB = 8;
    }
}

impl Flags for EndFlags {
    type Bits = u8;

    ghost exact = { ⊤ };

    ghost table = { (codes "SER", 1) ∷ (codes "SI", 2) ∷ (codes "NB", 4) ∷ (codes "KB", 8) ∷ [] };

    ghost set_of = { λ flags. flags.0 };

    fn flags<'a>() -> &'a [Flag<EndFlags>] {
        EndFlags::FLAGS
    }

    fn bits(&self) -> u8 {
        self.0
    }

    fn from_bits_retain(bits: u8) -> EndFlags {
        EndFlags(bits)
    }
}

/// Which states a merge reads.
#[derive(Drop)]
pub enum MergeOf {
    Leaves,
    States(StateList),
}

/// A request of one actor.
#[derive(Drop)]
pub enum Request {
    Open { follow: bool },
    Begin { begin: Begin },
    Get { key: Key },
    Put { key: Key, value: Value },
    Delete { key: Key },
    Commit { flags: EndFlags, k: u16 },
    Abort,
    BeginMerge { of: MergeOf },
    ForkPoints,
    Conflicts { after: ByteList },
    GetFor { key: Key, state: StateId },
    Ceiling { state: StateId },
    Raise { state: StateId },
    RaiseAuto,
    Tidy { n: u16 },
    Stat,
    Show { state: StateId },
    Leaves,
    Pull { counts: CountList },
    Deliver { item: Item },
    Close,
    Settle,
}
