//! Ceilings and floors move.

ghost use Rattle.plain_site.specs.Site.{Site};
ghost use Rattle.plain_site.specs.Sound.{IsSound};
ghost use Rattle.plain_site.specs.Answers.{without_txn};
ghost use Rattle.plain_site.specs.Sessions.{set_ceiling as set_ceiling_of};
ghost use Rattle.plain_site.specs.FloorSteps.{raise as raise_of, raise_auto as raise_auto_of, tidy as tidy_of};
ghost use Rattle.session_core.specs.Stands.{CoreStands, StandsForSite};
ghost use Rattle.session_core.specs.Gives.{GivesOrStops, IsGiven, NeedsNoMemory};
ghost use Rattle.session_core.specs.Rests.{Collects};

use crate::Parts;
use site_answers::{Stop, raise_refusal};
use tardis_base::{Refusal, Reply, SeqEnd, StateId};

impl Parts {
    /// Moves the ceiling of the actor's session down to the state. It takes no memory.
    ///
    /// Refused where no session is open (NotOpen), where it has a transaction (TxnOpen), where there is no such state
    /// (Unknown), and where the ceiling isn't at or above it (CeilingBack). A collected state is above every ceiling.
    pub(crate) fn set_ceiling(&mut self, actor: u16, state: StateId) -> Result<Reply, Stop>
        ensures given { (site : Site) → CoreStands self.old site → IsSound site
            → GivesOrStops (CoreStands self.new) (without_txn site actor (λ s. set_ceiling_of site actor s state)) site result }
        ensures sure { NeedsNoMemory result }
    {
        self.no_txn(actor)?;
        let dag = self.store.dag();
        if !dag.knows(state) {
            return Err(Stop::Refused(Refusal::Unknown { state }));
        }
        let slot = match dag.slot_of(state) {
            Some(slot) => slot,
            None => {
                return Err(Stop::Refused(Refusal::CeilingBack {
                    ceiling: dag.id_of(self.book.ceiling(actor)),
                }));
            },
        };
        match self.book.set_ceiling(dag, actor, slot) {
            Ok(()) => Ok(Reply::Done),
            Err(fault) => Err(Stop::Refused(Refusal::CeilingBack {
                ceiling: fault.ceiling,
            })),
        }
    }

    /// Moves the own floor down to the state, and numbers the consent that says so. It takes no memory.
    ///
    /// Refused where there is no such state (Unknown), where the floor isn't at or above it (FloorBack), where it isn't at
    /// or above the ceiling of an open session (Held), and where no number is left (SeqEnd). A collected state is above
    /// every floor. The cost is that of `CeilingBook::raise`.
    pub(crate) fn raise(&mut self, state: StateId) -> Result<Reply, Stop>
        ensures given { (site : Site) → CoreStands self.old site → IsSound site → GivesOrStops (CoreStands self.new) (raise_of site state) site result }
        ensures sure { NeedsNoMemory result }
    {
        let dag = self.store.dag();
        if !dag.knows(state) {
            return Err(Stop::Refused(Refusal::Unknown { state }));
        }
        let slot = match dag.slot_of(state) {
            Some(slot) => slot,
            None => {
                let (floor, _, _) = self.book.floor(self.book.own_site());
                return Err(Stop::Refused(Refusal::FloorBack {
                    floor: dag.id_of(floor),
                }));
            },
        };
        match self.book.raise(dag, slot) {
            Ok(number) => Ok(Reply::Raised {
                floor: state,
                number,
            }),
            Err(fault) => Err(Stop::Refused(raise_refusal(fault))),
        }
    }

    /// Moves the own floor to the automatic floor. It takes no memory.
    ///
    /// Refused where no number is left (SeqEnd). The cost is that of `CeilingBook::raise_auto`.
    pub(crate) fn raise_auto(&mut self) -> Result<Reply, Stop>
        ensures given { (site : Site) → CoreStands self.old site → IsSound site → GivesOrStops (CoreStands self.new) (raise_auto_of site) site result }
        ensures sure { NeedsNoMemory result }
    {
        let dag = self.store.dag();
        match self.book.raise_auto(dag) {
            Ok((slot, number)) => Ok(Reply::Raised {
                floor: dag.id_of(slot),
                number,
            }),
            Err(SeqEnd) => Err(Stop::Refused(Refusal::SeqEnd)),
        }
    }

    /// Collects up to `n` closed states, the collectable one that arrived last first, and tells how many. It takes no memory.
    pub(crate) fn tidy(&mut self, n: u16) -> Reply
        requires { StandsForSite self.old }
        ensures { (site : Site) → CoreStands self.old site → IsSound site → IsGiven (CoreStands self.new) (tidy_of site n) result }
    {
        let collected = self.collect(u32::from(n));
        Reply::Tidied { collected }
    }

    /// Collects up to `count` closed states, the collectable one that arrived last first, and answers how many.
    ///
    /// The cost is that of `path_compress::tidy`.
    pub(crate) fn collect(&mut self, count: u32) -> u32
        requires { StandsForSite self.old }
        ensures { Collects self.old self.new count result }
    {
        path_compress::tidy(&mut self.store, &mut self.book, count)
    }
}
