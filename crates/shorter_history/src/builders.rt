//! The parts of a checkpoint: told states in the order in which they arrived, lines of all others between them, and who goes when.

use crate::loads::Load;
use crate::past::{Node, Past, site_at};
use crate::steps::{Step, Telling, key_at};
use crate::told::{Fate, Fates, fates_of};
use crate::versions::{VersionPlace, gather_versions, is_read};
use session_core::SiteCore;
use std::alloc::Global;
use tardis_base::{NoMemory, StateId};

/// Parts, and what stands in memory once they were loaded.
#[derive(Drop)]
pub(crate) struct Builder<'a> {
    past: &'a Past,
    versions: &'a [VersionPlace],
    fates: Fates,
    /// The parts, and the past that they tell: a node for each state that is told and for each line, by the same numbers as in `load`.
    telling: Telling,
    next: Past,
    load: Load,
    /// By node: the state that it is, and the one below which others are told in its place.
    selves: Vec<Option<usize>>,
    tips: Vec<Option<usize>>,
    /// Nodes below whose tips lines may hang, the last one first to be asked.
    open: Vec<usize>,
    /// The state that arrived last.
    newest: usize,
    /// By site: how many states arrived, and how many more arrive before the next one that is told.
    counts: Vec<u32>,
    waiting: Vec<u32>,
    /// Room for those above a state and their ids, and for those that may go.
    below: Vec<StateId>,
    above: Vec<usize>,
    going: Vec<usize>,
    is_lost: bool,
}

/// The parts of a checkpoint, and the past that they tell.
#[derive(Drop)]
pub(crate) struct Checkpoint {
    pub(crate) telling: Telling,
    pub(crate) past: Past,
}

/// A checkpoint of the site, where this is its past, and the versions that are read at it. `None`, where it isn't.
pub(crate) fn checkpoint_of(
    alloc: Global,
    core: &SiteCore,
    past: &Past,
) -> Result<Option<(Checkpoint, Vec<VersionPlace>)>, NoMemory> {
    if past.is_lost() {
        return Ok(None);
    }
    let versions = gather_versions(alloc, core.store())?;
    let Some(fates) = fates_of(alloc, core, past, versions.as_slice())? else {
        return Ok(None);
    };
    let sites = core.store().dag().limits().sites;
    match tell_past(alloc, past, fates, sites, versions.as_slice())? {
        Some(checkpoint) => Ok(Some((checkpoint, versions))),
        None => Ok(None),
    }
}

/// Tells the states of the past that are told, and lines of the others.
fn tell_past(
    alloc: Global,
    past: &Past,
    fates: Fates,
    sites: u16,
    versions: &[VersionPlace],
) -> Result<Option<Checkpoint>, NoMemory> {
    let mut builder = Builder::new(alloc, past, fates, sites, versions)?;
    for number in 1..past.nodes().len() {
        builder.pass(number)?;
        if builder.is_lost {
            return Ok(None);
        }
    }
    builder.tell_waiting()?;
    builder.end()?;
    if builder.is_lost || builder.next.is_lost() {
        return Ok(None);
    }
    let Builder { telling, next, .. } = builder;
    Ok(Some(Checkpoint {
        telling,
        past: next,
    }))
}

impl<'a> Builder<'a> {
    fn new(
        alloc: Global,
        past: &'a Past,
        fates: Fates,
        sites: u16,
        versions: &'a [VersionPlace],
    ) -> Result<Builder<'a>, NoMemory> {
        let mut load = Load::new(alloc);
        let is_root_kept = fates.fate(0).is_some_and(|fate| fate.is_kept);
        let root = load.push(StateId::ROOT, 0, is_root_kept)?;
        let mut selves = vec![in alloc; None; past.nodes().len()]?;
        let mut tips = vec![in alloc; None; past.nodes().len()]?;
        if let Some(node) = selves.get_mut(0) {
            *node = Some(root);
        }
        if let Some(tip) = tips.get_mut(0) {
            *tip = Some(root);
        }
        let mut open = Vec::new(alloc);
        if !is_root_kept {
            open.push(0)?;
        }
        Ok(Builder {
            past,
            versions,
            fates,
            telling: Telling::new(alloc),
            next: Past::new(alloc, sites)?,
            load,
            selves,
            tips,
            open,
            newest: root,
            counts: vec![in alloc; 0; usize::from(sites)]?,
            waiting: vec![in alloc; 0; usize::from(sites)]?,
            below: Vec::new(alloc),
            above: Vec::new(alloc),
            going: Vec::new(alloc),
            is_lost: false,
        })
    }

    fn lose(&mut self) {
        self.is_lost = true;
    }

    /// The next node arrives: it is told, or waits for others of its site.
    fn pass(&mut self, number: usize) -> Result<(), NoMemory> {
        let (Some(node), Some(fate)) = (
            self.past.nodes().get(number).copied(),
            self.fates.fate(number),
        ) else {
            return Ok(());
        };
        if fate.is_told {
            self.tell_waiting()?;
            return self.tell(number, &node, &fate);
        }
        if let Some(waiting) = self
            .waiting
            .get_mut((node.id.site as usize).saturating_sub(1))
        {
            *waiting = waiting.saturating_add(node.count);
        }
        Ok(())
    }

    /// The state below which one is told that is told below the node at this place of its list: the node's own, or its tip.
    fn told_above(&self, fate: &Fate, place: usize) -> Option<usize> {
        let up = self.fates.ups_of(fate).get(place).copied()?;
        let state = if fate.is_kept {
            self.selves.get(up)
        } else {
            self.tips.get(up)
        };
        state.copied()?
    }

    /// Tells a state below those that it is told below, or their tips.
    fn tell(&mut self, number: usize, node: &Node, fate: &Fate) -> Result<(), NoMemory> {
        self.above.clear();
        for place in 0..self.fates.ups_of(fate).len() {
            match self.told_above(fate, place) {
                Some(state) => self.above.push(state)?,
                None => self.is_lost = true,
            }
        }
        let keys = self.past.keys_of(node);
        let state = self.push_state(node.id, number, fate.is_kept, keys)?;
        if let Some(place) = self.selves.get_mut(number) {
            *place = Some(state);
        }
        if let Some(tip) = self.tips.get_mut(number) {
            *tip = Some(state);
        }
        if !fate.is_kept && fate.others_below > 0 {
            self.open.push(number)?;
        }
        for place in 0..self.fates.ups_of(fate).len() {
            if let Some(up) = self.fates.ups_of(fate).get(place).copied() {
                self.fates.pass(up, fate.is_kept);
            }
        }
        self.going.extend_from_slice(self.above.as_slice())?;
        self.let_go()
    }

    /// A state arrives below those that were gathered, as a part of its own, and writes these keys beside what is read of it.
    fn push_state(
        &mut self,
        id: StateId,
        node: usize,
        is_kept: bool,
        keys: &[u8],
    ) -> Result<usize, NoMemory> {
        let state = self.load.push(id, node, is_kept)?;
        self.below.clear();
        for above in self.above.as_slice() {
            if let Some(parent) = self.load.state(*above) {
                self.below.push(parent.id)?;
            }
            self.load.join(*above, state)?;
        }
        self.below.sort_unstable();
        let first_key = self.telling.next_key();
        let joins = !is_kept && self.above.len() > 1;
        let keys_beside = if joins { self.push_keys(id, keys)? } else { 0 };
        self.telling
            .push_record(id, self.below.as_slice(), first_key, keys_beside)?;
        self.next.arrive(id, self.above.as_slice(), keys)?;
        self.arrive(id.site, 1);
        self.newest = state;
        Ok(state)
    }

    /// Spells those of the keys of which nothing is read of the state, and counts them.
    fn push_keys(&mut self, id: StateId, keys: &[u8]) -> Result<usize, NoMemory> {
        let mut count: usize = 0;
        let mut place: usize = 0;
        for _key in 0..keys.len() {
            let Some(key) = key_at(keys, place) else {
                break;
            };
            if !is_read(self.versions, id, key) {
                self.telling.push_key(key)?;
                count = count.saturating_add(1);
            }
            place = place.saturating_add(key.len()).saturating_add(1);
        }
        Ok(count)
    }

    fn arrive(&mut self, site: u16, count: u32) {
        if let Some(arrived) = self.counts.get_mut((site as usize).saturating_sub(1)) {
            *arrived = arrived.saturating_add(count);
        }
    }

    /// Tells all that wait, site by site.
    fn tell_waiting(&mut self) -> Result<(), NoMemory> {
        for place in 0..self.waiting.len() {
            let Some(count) = self.waiting.get_mut(place) else {
                break;
            };
            let waiting = *count;
            *count = 0;
            if waiting > 0 {
                self.tell_others(place, waiting)?;
            }
        }
        Ok(())
    }

    /// Tells so many states of the site: a line below the newest state, where that may go; else one below the tip of an open node, and a
    /// line below that.
    fn tell_others(&mut self, place: usize, count: u32) -> Result<(), NoMemory> {
        let site = site_at(place);
        let mut left = count;
        if !self.may_go_on() {
            let Some(node) = self.open_node() else {
                self.lose();
                return Ok(());
            };
            self.tell_below(node, site, place)?;
            left = left.saturating_sub(1);
        }
        if left > 0 {
            self.tell_line(site, place, left)?;
        }
        Ok(())
    }

    /// Whether a line may stand below the newest state, which goes by it.
    fn may_go_on(&self) -> bool {
        let Some(state) = self.load.state(self.newest) else {
            return false;
        };
        let Some(fate) = self.fates.fate(state.node) else {
            return false;
        };
        let is_self = self.selves.get(state.node).copied() == Some(Some(self.newest));
        let is_tip = self.tips.get(state.node).copied() == Some(Some(self.newest));
        !state.is_kept && is_tip && fate.others_below > 0 && !(is_self && fate.kept_below > 0)
    }

    /// A node that isn't kept, below whose tip others are told later.
    fn open_node(&mut self) -> Option<usize> {
        for _node in 0..self.open.len() {
            let node = self.open.last().copied()?;
            if self.fates.fate(node)?.others_below > 0 {
                return Some(node);
            }
            let _ = self.open.pop();
        }
        None
    }

    /// Tells the next state of the site below the node's tip, which it is then.
    fn tell_below(&mut self, node: usize, site: u16, place: usize) -> Result<(), NoMemory> {
        let Some(Some(tip)) = self.tips.get(node).copied() else {
            self.lose();
            return Ok(());
        };
        let sequence = self
            .counts
            .get(place)
            .copied()
            .unwrap_or(0)
            .saturating_add(1);
        self.above.clear();
        self.above.push(tip)?;
        let state = self.push_state(StateId { site, sequence }, node, false, &[])?;
        self.set_tip(node, state);
        self.going.push(tip)?;
        self.let_go()
    }

    fn set_tip(&mut self, node: usize, state: usize) {
        if let Some(tip) = self.tips.get_mut(node) {
            *tip = Some(state);
        }
    }

    /// Tells a line below the newest state, which goes by it.
    fn tell_line(&mut self, site: u16, place: usize, count: u32) -> Result<(), NoMemory> {
        let Some(newest) = self.load.state(self.newest) else {
            return Ok(());
        };
        let sequence = self
            .counts
            .get(place)
            .copied()
            .unwrap_or(0)
            .saturating_add(count);
        let state = self
            .load
            .push(StateId { site, sequence }, newest.node, false)?;
        self.load.join(self.newest, state)?;
        self.telling.push(Step::Line { site, count })?;
        self.next.arrive_in_line(site, count)?;
        self.arrive(site, count);
        self.load.leave(self.newest, state, &mut self.going)?;
        self.load.gather_parents(self.newest, &mut self.going)?;
        self.newest = state;
        self.set_tip(newest.node, state);
        self.let_go()
    }

    /// Those that were gathered go, if they may, and then those above them.
    fn let_go(&mut self) -> Result<(), NoMemory> {
        for _state in 0..u64::MAX {
            let Some(number) = self.going.pop() else {
                return Ok(());
            };
            if !self.may_go(number) {
                continue;
            }
            let (Some(heir), Some(state)) = (
                self.load.common_heir(number)?,
                self.load.state(number),
            ) else {
                continue;
            };
            self.load.leave(number, heir, &mut self.going)?;
            self.telling.push(Step::Gone(state.id))?;
            self.load.gather_parents(number, &mut self.going)?;
        }
        Ok(())
    }

    /// Whether nothing more is told below the state.
    fn may_go(&self, number: usize) -> bool {
        let Some(state) = self.load.state(number) else {
            return false;
        };
        let Some(fate) = self.fates.fate(state.node) else {
            return false;
        };
        let is_self = self.selves.get(state.node).copied() == Some(Some(number));
        let is_tip = self.tips.get(state.node).copied() == Some(Some(number));
        !(is_tip && fate.others_below > 0) && !(is_self && fate.kept_below > 0)
    }

    /// All that is left goes.
    fn end(&mut self) -> Result<(), NoMemory> {
        for number in (0..self.load.len()).rev() {
            self.going.push(number)?;
            self.let_go()?;
        }
        Ok(())
    }
}
