//! The steps of a plan, each of which is one thing.

use std::alloc::Global;
use tardis_base::{NoMemory, StateId};

/// A state that is told as a record: where its parents stand among those of all.
#[derive(Clone, Copy)]
pub(crate) struct Told {
    pub(crate) id: StateId,
    pub(crate) first: usize,
    pub(crate) parents: usize,
    /// Where the keys are spelled that it writes beside what is read of it, and how many there are.
    pub(crate) first_key: usize,
    pub(crate) keys: usize,
}

/// One thing.
#[derive(Clone, Copy)]
pub(crate) enum Step {
    Record(Told),
    Line { site: u16, count: u32 },
    Gone(StateId),
}

/// The steps, and the parents of the states that are told as records.
#[derive(Drop)]
pub(crate) struct Telling {
    steps: Vec<Step>,
    parents: Vec<StateId>,
    /// Each behind its length.
    keys: Vec<u8>,
}

impl Telling {
    pub(crate) fn new(alloc: Global) -> Telling {
        Telling {
            steps: Vec::new(alloc),
            parents: Vec::new(alloc),
            keys: Vec::new(alloc),
        }
    }

    pub(crate) fn len(&self) -> usize {
        self.steps.len()
    }

    /// The step of this number.
    pub(crate) fn step(&self, number: usize) -> Option<Step> {
        self.steps.get(number).copied()
    }

    /// The parent of this number of a state that is told.
    pub(crate) fn parent(&self, told: &Told, number: usize) -> Option<StateId> {
        self.parents.get(told.first.saturating_add(number)).copied()
    }

    pub(crate) fn push(&mut self, step: Step) -> Result<(), NoMemory> {
        self.steps.push(step)?;
        Ok(())
    }

    /// The key that is spelled from this place on.
    pub(crate) fn key_at(&self, place: usize) -> Option<&[u8]> {
        key_at(self.keys.as_slice(), place)
    }

    /// Where keys are spelled next.
    pub(crate) fn next_key(&self) -> usize {
        self.keys.len()
    }

    /// Spells one key more.
    pub(crate) fn push_key(&mut self, key: &[u8]) -> Result<(), NoMemory> {
        self.keys.push(u8::try_from(key.len()).unwrap_or(u8::MAX))?;
        self.keys.extend_from_slice(key)?;
        Ok(())
    }

    /// A state below these, as a record, which writes so many keys too, which are spelled from that place on.
    pub(crate) fn push_record(
        &mut self,
        id: StateId,
        parents: &[StateId],
        first_key: usize,
        keys: usize,
    ) -> Result<(), NoMemory> {
        let first = self.parents.len();
        self.parents.extend_from_slice(parents)?;
        let told = Told {
            id,
            first,
            parents: parents.len(),
            first_key,
            keys,
        };
        self.push(Step::Record(told))
    }
}

/// The key that is spelled from the place on, behind its length.
pub(crate) fn key_at(keys: &[u8], place: usize) -> Option<&[u8]> {
    let count = usize::from(*keys.get(place)?);
    let first = place.saturating_add(1);
    let end = first.saturating_add(count);
    if first <= end && end <= keys.len() {
        Some(&keys[first..end])
    } else {
        None
    }
}
