//! Which states are told, and below which: the kept ones; of the others the parents and the children of kept ones, and those of which
//! something is read; and those below several of these.

ghost use Rattle.std.specs.Prelude.{◌<◌, length};

use crate::past::{NONE, Node, Past, Range, items};
use crate::versions::{VersionPlace, count_kept};
use session_core::SiteCore;
use state_dag::StateDag;
use std::alloc::Global;
use tardis_base::{NoMemory, StateId};

/// What becomes of a node.
#[derive(Clone, Copy)]
pub(crate) struct Fate {
    pub(crate) is_kept: bool,
    pub(crate) is_told: bool,
    /// The node itself, if it is told; else the only one of the told nodes above it that is above none of the others.
    near: usize,
    /// Where the told nodes stand that it is told below.
    ups: Range,
    /// How many told nodes, that are kept or that aren't, are told below it.
    pub(crate) kept_below: u32,
    pub(crate) others_below: u32,
    /// The search that met it last.
    met: u64,
}

/// What becomes of each node, by its number.
#[derive(Drop)]
pub(crate) struct Fates {
    fates: Vec<Fate>,
    ups: Vec<usize>,
    /// Room for those above one node, and for a search.
    above: Vec<usize>,
    left: Vec<usize>,
    searches: u64,
}

/// Which states are told. The cost grows with the nodes and their parents, and for each node with several parents with the told states
/// between these.
pub(crate) fn fates_of(
    alloc: Global,
    core: &SiteCore,
    past: &Past,
    versions: &[VersionPlace],
) -> Result<Option<Fates>, NoMemory> {
    let mut fates = Fates {
        fates: Vec::new(alloc),
        ups: Vec::new(alloc),
        above: Vec::new(alloc),
        left: Vec::new(alloc),
        searches: 0,
    };
    for number in 0..past.nodes().len() {
        fates.fates.push(Fate {
            is_kept: false,
            is_told: number == 0,
            near: number,
            ups: NONE,
            kept_below: 0,
            others_below: 0,
            met: 0,
        })?;
    }
    if !fates.need_all(core, past, versions) {
        return Ok(None);
    }
    for number in 1..past.nodes().len() {
        fates.judge(past, number)?;
    }
    Ok(Some(fates))
}

impl Fates {
    pub(crate) fn fate(&self, number: usize) -> Option<Fate> {
        self.fates.get(number).copied()
    }

    /// The told nodes below which the node is told.
    pub(crate) fn ups_of(&self, fate: &Fate) -> &[usize] {
        items(self.ups.as_slice(), fate.ups)
    }

    /// One of those below the node was told.
    pub(crate) fn pass(&mut self, number: usize, is_kept: bool) {
        if let Some(fate) = self.fates.get_mut(number) {
            if is_kept {
                fate.kept_below = fate.kept_below.saturating_sub(1);
            } else {
                fate.others_below = fate.others_below.saturating_sub(1);
            }
        }
    }

    /// All kept states, their parents and children, and the writers of what is read. `false`, where one isn't a node of its own.
    fn need_all(&mut self, core: &SiteCore, past: &Past, versions: &[VersionPlace]) -> bool {
        let dag = core.store().dag();
        for place in 0..count_kept(dag) {
            if !self.need_around(dag, place, past) {
                return false;
            }
        }
        for version in versions {
            if !self.need(past, version.writer) {
                return false;
            }
        }
        true
    }

    /// The kept state at the place, its parents and its children.
    fn need_around(&mut self, dag: &StateDag, place: usize, past: &Past) -> bool
        requires { place < length dag.now.entries }
    {
        let entry = dag.entry(place);
        let around = self.need(past, entry.id)
            && self.need_each(past, entry.parents)
            && self.need_each(past, entry.children);
        if let Some(number) = past.node_of(entry.id) {
            if let Some(fate) = self.fates.get_mut(number) {
                fate.is_kept = true;
            }
        }
        around
    }

    fn need_each(&mut self, past: &Past, states: &[StateId]) -> bool {
        for id in states {
            if !self.need(past, *id) {
                return false;
            }
        }
        true
    }

    fn need(&mut self, past: &Past, id: StateId) -> bool {
        let Some(number) = past.node_of(id) else {
            return false;
        };
        match (past.nodes().get(number), self.fates.get_mut(number)) {
            (Some(node), Some(fate)) if node.count == 1 => {
                fate.is_told = true;
                true
            },
            _ => false,
        }
    }

    /// What becomes of the node, where that is known of all before it.
    fn judge(&mut self, past: &Past, number: usize) -> Result<(), NoMemory> {
        let (Some(node), Some(fate)) = (past.nodes().get(number), self.fate(number)) else {
            return Ok(());
        };
        self.gather_near(past, node)?;
        self.drop_upper()?;
        if !fate.is_told && self.above.len() == 1 && node.count >= 1 {
            let near = self.above.first().copied().unwrap_or(0);
            if let Some(fate) = self.fates.get_mut(number) {
                fate.near = near;
            }
            return Ok(());
        }
        let first = self.ups.len();
        self.ups.extend_from_slice(self.above.as_slice())?;
        let ups = Range {
            first,
            count: self.above.len(),
        };
        if let Some(fate) = self.fates.get_mut(number) {
            fate.is_told = true;
            fate.ups = ups;
        }
        self.count_below(fate.is_kept);
        Ok(())
    }

    /// One more is told below each of those that were gathered.
    fn count_below(&mut self, is_kept: bool) {
        for number in self.above.as_slice() {
            if let Some(fate) = self.fates.get_mut(*number) {
                if is_kept {
                    fate.kept_below = fate.kept_below.saturating_add(1);
                } else {
                    fate.others_below = fate.others_below.saturating_add(1);
                }
            }
        }
    }

    /// Gathers the told nodes that are nearest to the node's parents, each once.
    fn gather_near(&mut self, past: &Past, node: &Node) -> Result<(), NoMemory> {
        self.above.clear();
        for parent in past.parents_of(node) {
            if let Some(fate) = self.fates.get(*parent) {
                self.above.push(fate.near)?;
            }
        }
        self.above.sort_unstable();
        self.above.dedup();
        Ok(())
    }

    /// Drops those that are above another one.
    fn drop_upper(&mut self) -> Result<(), NoMemory> {
        let mut place = 0;
        for _number in 0..self.above.len() {
            if place >= self.above.len() {
                return Ok(());
            }
            if self.is_above_later(place)? && place < self.above.len() {
                let _ = self.above.remove(place);
            } else {
                place += 1;
            }
        }
        Ok(())
    }

    /// Whether the node at the place, of those that were gathered, is above one of the later ones.
    fn is_above_later(&mut self, place: usize) -> Result<bool, NoMemory> {
        let Some(one) = self.above.get(place).copied() else {
            return Ok(false);
        };
        self.searches = self.searches.saturating_add(1);
        self.left.clear();
        self.left
            .extend_from_slice(self.above.get(place + 1..).unwrap_or(&[]))?;
        for _step in 0..u64::MAX {
            let Some(next) = self.left.pop() else {
                return Ok(false);
            };
            if next == one {
                return Ok(true);
            }
            if next > one {
                self.look_above(next)?;
            }
        }
        Ok(false)
    }

    /// Those that the node is told below are looked at, where it wasn't met before in this search.
    fn look_above(&mut self, number: usize) -> Result<(), NoMemory> {
        let Some(fate) = self.fates.get_mut(number) else {
            return Ok(());
        };
        if fate.met == self.searches {
            return Ok(());
        }
        fate.met = self.searches;
        let ups = fate.ups;
        self.left
            .extend_from_slice(items(self.ups.as_slice(), ups))?;
        Ok(())
    }
}
