//! Why a request stops, by the fault that is met.

use begin_rule::{BeginFault, MergeFault};
use ceiling_book::OpenFault;
use end_rule::Branches;
use merge_txn::TxnFault;
use std::alloc::{AllocError, AllocFailed};
use tardis_base::{AddFault, NoMemory, Refusal};

/// Why a request stops: it is refused, or there is no memory. All is then as before.
#[derive(Drop)]
pub enum Stop {
    Refused(Refusal),
    NoMemory,
}

impl From<Refusal> for Stop {
    ghost use Rattle.std.specs.Prelude.{◌≡◌};
    ghost use Rattle.site_answers.specs.declared.stops.Stop.TheVariants.{Refused};

    ghost from_gives = { λ refusal stop. stop ≡ Refused refusal };

    fn from(refusal: Refusal) -> Stop {
        Stop::Refused(refusal)
    }
}

impl From<NoMemory> for Stop {
    ghost use Rattle.std.specs.Prelude.{◌≡◌};
    ghost use Rattle.site_answers.specs.declared.stops.Stop.TheVariants.{NoMemory as OutOfMemory};

    ghost from_gives = { λ _ stop. stop ≡ OutOfMemory };

    fn from(_: NoMemory) -> Stop {
        Stop::NoMemory
    }
}

impl From<AllocError> for Stop {
    ghost use Rattle.std.specs.Prelude.{◌≡◌};
    ghost use Rattle.site_answers.specs.declared.stops.Stop.TheVariants.{NoMemory as OutOfMemory};

    ghost from_gives = { λ _ stop. stop ≡ OutOfMemory };

    fn from(_: AllocError) -> Stop {
        Stop::NoMemory
    }
}

impl<T: Drop> From<AllocFailed<T>> for Stop {
    ghost use Rattle.std.specs.Prelude.{◌≡◌};
    ghost use Rattle.site_answers.specs.declared.stops.Stop.TheVariants.{NoMemory as OutOfMemory};

    ghost from_gives = { λ _ stop. stop ≡ OutOfMemory };

    fn from(_: AllocFailed<T>) -> Stop {
        Stop::NoMemory
    }
}

impl From<BeginFault> for Stop {
    ghost use Rattle.std.specs.Prelude.{◌≡◌};
    ghost use Rattle.site_answers.specs.Stops.{begin_stop};

    ghost from_gives = { λ fault stop. stop ≡ begin_stop fault };

    fn from(fault: BeginFault) -> Stop {
        match fault {
            BeginFault::Unknown { state } => Stop::Refused(Refusal::Unknown { state }),
            BeginFault::Below { state, ceiling } => {
                Stop::Refused(Refusal::Below { state, ceiling })
            },
        }
    }
}

impl From<MergeFault> for Stop {
    ghost use Rattle.std.specs.Prelude.{◌≡◌};
    ghost use Rattle.site_answers.specs.Stops.{merge_stop};

    ghost from_gives = { λ fault stop. stop ≡ merge_stop fault };

    fn from(fault: MergeFault) -> Stop {
        match fault {
            MergeFault::Unknown { state } => Stop::Refused(Refusal::Unknown { state }),
            MergeFault::Below { state, ceiling } => {
                Stop::Refused(Refusal::Below { state, ceiling })
            },
            MergeFault::Comparable { a, b } => Stop::Refused(Refusal::Comparable { a, b }),
            MergeFault::NoMemory => Stop::NoMemory,
        }
    }
}

impl From<OpenFault> for Stop {
    ghost use Rattle.std.specs.Prelude.{◌≡◌};
    ghost use Rattle.site_answers.specs.Stops.{open_stop};

    ghost from_gives = { λ fault stop. stop ≡ open_stop fault };

    fn from(fault: OpenFault) -> Stop {
        match fault {
            OpenFault::AlreadyOpen => Stop::Refused(Refusal::AlreadyOpen),
            OpenFault::SessionsFull { n } => Stop::Refused(Refusal::SessionsFull { n }),
            OpenFault::NoMemory => Stop::NoMemory,
        }
    }
}

impl From<TxnFault> for Stop {
    ghost use Rattle.std.specs.Prelude.{◌≡◌};
    ghost use Rattle.site_answers.specs.Stops.{txn_stop};

    ghost from_gives = { λ fault stop. stop ≡ txn_stop fault };

    fn from(fault: TxnFault) -> Stop {
        match fault {
            TxnFault::TooMany { what, n } => Stop::Refused(Refusal::TooMany { what, n }),
            TxnFault::NoMemory => Stop::NoMemory,
        }
    }
}

impl From<Branches> for Stop {
    ghost use Rattle.std.specs.Prelude.{◌≡◌};
    ghost use Rattle.site_answers.specs.Stops.{branches_stop};

    ghost from_gives = { λ found stop. stop ≡ branches_stop found };

    fn from(found: Branches) -> Stop {
        Stop::Refused(Refusal::Branches {
            constraint: found.constraint,
            state: found.state,
            children: found.children,
        })
    }
}

impl From<AddFault> for Stop {
    ghost use Rattle.std.specs.Prelude.{◌≡◌};
    ghost use Rattle.site_answers.specs.Stops.{add_stop};

    ghost from_gives = { λ fault stop. stop ≡ add_stop fault };

    fn from(fault: AddFault) -> Stop {
        match fault {
            AddFault::Full { kept } => Stop::Refused(Refusal::Full { kept }),
            AddFault::PathFull { state, pairs } => {
                Stop::Refused(Refusal::PathFull { state, pairs })
            },
            AddFault::NoMemory => Stop::NoMemory,
        }
    }
}
