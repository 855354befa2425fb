//! The states that a log told, in the order in which they arrived, as far as a shorter history is made of them.

use crate::builders::checkpoint_of;
use crate::reading::note_all;
use session_core::SiteCore;
use std::alloc::Global;
use tardis_base::{NoMemory, StateId};

/// A state; or a line of states of one site, each below the one before it, the first below the state that arrived before them.
#[derive(Clone, Copy)]
pub(crate) struct Node {
    pub(crate) id: StateId,
    /// How many states it is: 1, or as many as the line has; of these `id` is the first.
    pub(crate) count: u32,
    /// Where the numbers of its parents stand among those of all, and how many there are.
    pub(crate) parents: Range,
    /// Where the keys that it writes are spelled among those of all, if it has several parents.
    pub(crate) keys: Range,
}

/// So many of a list, from the first on.
#[derive(Clone, Copy)]
pub(crate) struct Range {
    pub(crate) first: usize,
    pub(crate) count: usize,
}

/// How many nodes come at least before a past is made short again.
const LONG: usize = 65_536;

/// Nothing of a list.
pub(crate) const NONE: Range = Range { first: 0, count: 0 };

/// The items of the list in the range; none, where it isn't one of the list.
pub(crate) fn items(list: &[usize], range: Range) -> &[usize] {
    let end = range.first.saturating_add(range.count);
    if range.first <= end && end <= list.len() {
        &list[range.first..end]
    } else {
        &[]
    }
}

/// The number of the site at this place among all, which count from 1.
pub(crate) fn site_at(place: usize) -> u16 {
    u16::try_from(place.saturating_add(1)).unwrap_or(u16::MAX)
}

/// From which number on a site's states are those of a node.
#[derive(Clone, Copy)]
struct Start {
    sequence: u32,
    node: usize,
}

/// The states that a log told so far, oldest first, the root before them.
#[derive(Drop)]
pub struct Past {
    alloc: Global,
    nodes: Vec<Node>,
    /// The numbers of the parents of all nodes.
    parents: Vec<usize>,
    /// The keys of all nodes with several parents, each behind its length.
    keys: Vec<u8>,
    /// By site, ascending.
    starts: Vec<Vec<Start>>,
    /// How many nodes there were when the past was made short.
    short: usize,
    is_lost: bool,
}

impl Past {
    /// The past of a site that opens, of so many sites: the root alone.
    pub fn new(alloc: Global, sites: u16) -> Result<Past, NoMemory> {
        let mut nodes = Vec::new(alloc);
        nodes.push(Node {
            id: StateId::ROOT,
            count: 1,
            parents: NONE,
            keys: NONE,
        })?;
        let mut starts = Vec::new(alloc);
        for _site in 0..sites {
            starts.push(Vec::new(alloc))?;
        }
        Ok(Past {
            alloc,
            nodes,
            parents: Vec::new(alloc),
            keys: Vec::new(alloc),
            starts,
            short: 0,
            is_lost: false,
        })
    }

    /// Notes the states that arrive by these things, which stand one behind another in a log. Where there is no memory, or they are
    /// no such things, the past is lost, and there is no plan any more.
    pub fn note(&mut self, bytes: &[u8]) {
        if !self.is_lost && note_all(self.alloc, self, bytes).is_err() {
            self.is_lost = true;
        }
    }

    /// Whether it is time to make it short: it has become twice as long, and `LONG` nodes came at least.
    pub fn is_long(&self) -> bool {
        !self.is_lost && self.nodes.len() - self.short.min(self.nodes.len()) > LONG.max(self.short)
    }

    /// Makes it as short as the site allows whose past it is: so it doesn't grow with all that ever arrived. Where there is no memory for
    /// that, it is lost.
    ///
    /// The cost grows with its length.
    pub fn shorten(&mut self, core: &SiteCore) {
        match checkpoint_of(self.alloc, core, self) {
            Ok(Some((checkpoint, _))) => {
                *self = checkpoint.past;
                self.short = self.nodes.len();
            },
            _ => self.is_lost = true,
        }
    }

    /// No shorter history is made of what is no log of the site.
    pub(crate) fn lose(&mut self) {
        self.is_lost = true;
    }

    pub(crate) fn is_lost(&self) -> bool {
        self.is_lost
    }

    pub(crate) fn nodes(&self) -> &[Node] {
        self.nodes.as_slice()
    }

    /// The numbers of the node's parents.
    pub(crate) fn parents_of(&self, node: &Node) -> &[usize] {
        items(self.parents.as_slice(), node.parents)
    }

    /// The keys that the node writes, each behind its length.
    pub(crate) fn keys_of(&self, node: &Node) -> &[u8] {
        let end = node.keys.first.saturating_add(node.keys.count);
        if node.keys.first <= end && end <= self.keys.len() {
            &self.keys[node.keys.first..end]
        } else {
            &[]
        }
    }

    /// The number of the node that the state is, or is of.
    pub(crate) fn node_of(&self, id: StateId) -> Option<usize> {
        if id.site == 0 {
            return Some(0);
        }
        let starts = self.starts.get(id.site as usize - 1)?;
        let behind = starts.partition_point(|start| start.sequence <= id.sequence);
        let start = starts.get(behind.checked_sub(1)?)?;
        let node = self.nodes.get(start.node)?;
        if id.sequence.checked_sub(start.sequence)? < node.count {
            Some(start.node)
        } else {
            None
        }
    }

    /// A state arrives below these, and writes these keys, each behind its length.
    pub(crate) fn arrive(
        &mut self,
        id: StateId,
        parents: &[usize],
        keys: &[u8],
    ) -> Result<(), NoMemory> {
        let first = self.keys.len();
        self.keys.extend_from_slice(keys)?;
        let parents = put_behind(&mut self.parents, parents)?;
        self.push(Node {
            id,
            count: 1,
            parents,
            keys: Range {
                first,
                count: keys.len(),
            },
        })
    }

    /// So many states of the site arrive in a line.
    pub(crate) fn arrive_in_line(&mut self, site: u16, count: u32) -> Result<(), NoMemory> {
        if count == 0 {
            return Ok(());
        }
        let last = self.nodes.len().saturating_sub(1);
        let parents = put_behind(&mut self.parents, &[last])?;
        let sequence = self.next_of(site);
        self.push(Node {
            id: StateId { site, sequence },
            count,
            parents,
            keys: NONE,
        })
    }

    /// So many states of the site arrive in a row, of which the last one may be kept.
    pub(crate) fn arrive_in_row(&mut self, site: u16, count: u32) -> Result<(), NoMemory> {
        self.arrive_in_line(site, count.saturating_sub(1))?;
        self.arrive_in_line(site, count.min(1))
    }

    fn push(&mut self, node: Node) -> Result<(), NoMemory> {
        let start = Start {
            sequence: node.id.sequence,
            node: self.nodes.len(),
        };
        if node.id.sequence != self.next_of(node.id.site) {
            self.lose();
            return Ok(());
        }
        if let Some(starts) = self
            .starts
            .get_mut((node.id.site as usize).saturating_sub(1))
        {
            starts.push(start)?;
            self.nodes.push(node)?;
        }
        Ok(())
    }

    /// The next number of the site.
    fn next_of(&self, site: u16) -> u32 {
        let Some(starts) = self.starts.get((site as usize).saturating_sub(1)) else {
            return 0;
        };
        match starts.last() {
            Some(start) => match self.nodes.get(start.node) {
                Some(node) => start.sequence.saturating_add(node.count),
                None => 0,
            },
            None => 1,
        }
    }
}

/// Puts the items behind those of the list, and says where they stand.
fn put_behind(list: &mut Vec<usize>, items: &[usize]) -> Result<Range, NoMemory> {
    let first = list.len();
    list.extend_from_slice(items)?;
    Ok(Range {
        first,
        count: items.len(),
    })
}
