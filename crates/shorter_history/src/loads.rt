//! What stands in memory while a checkpoint is loaded, as far as it tells which states may go.

use std::alloc::Global;
use tardis_base::{NoMemory, StateId};

/// A state that is told, or the last one of a line.
#[derive(Clone, Copy)]
pub(crate) struct Loaded {
    pub(crate) id: StateId,
    /// The node that it is, or below which it was told so that others are told below it in its place.
    pub(crate) node: usize,
    pub(crate) is_kept: bool,
    is_gone: bool,
    /// It, or the one that stands in for it.
    heir: usize,
    /// The last of the edges to its children, and to its parents.
    child: Option<usize>,
    parent: Option<usize>,
    /// Of its children, the newest whose stand-in was another one than that of the last child, where that was asked.
    apart: Option<usize>,
    /// Those that wait until it goes, or another one goes whose stand-in it is.
    waiting: Queue,
}

/// From a parent to a child.
#[derive(Clone, Copy)]
struct Edge {
    parent: usize,
    child: usize,
    next_child: Option<usize>,
    next_parent: Option<usize>,
}

/// States that wait: the places of the first and the last one, and how many there are. Where two stand-ins become one, those of the
/// shorter queue are asked again: so the cost grows with the number of edges, times its logarithm.
#[derive(Clone, Copy)]
struct Queue {
    first: Option<usize>,
    last: Option<usize>,
    count: usize,
}

/// A state that waits, and the place of the next one.
#[derive(Clone, Copy)]
struct Waiting {
    state: usize,
    next: Option<usize>,
}

const NOBODY: Queue = Queue {
    first: None,
    last: None,
    count: 0,
};

#[derive(Drop)]
pub(crate) struct Load {
    states: Vec<Loaded>,
    edges: Vec<Edge>,
    waiting: Vec<Waiting>,
}

impl Load {
    pub(crate) fn new(alloc: Global) -> Load {
        Load {
            states: Vec::new(alloc),
            edges: Vec::new(alloc),
            waiting: Vec::new(alloc),
        }
    }

    pub(crate) fn len(&self) -> usize {
        self.states.len()
    }

    pub(crate) fn state(&self, number: usize) -> Option<Loaded> {
        self.states.get(number).copied()
    }

    /// One more state, whose number this is.
    pub(crate) fn push(
        &mut self,
        id: StateId,
        node: usize,
        is_kept: bool,
    ) -> Result<usize, NoMemory> {
        let number = self.states.len();
        self.states.push(Loaded {
            id,
            node,
            is_kept,
            is_gone: false,
            heir: number,
            child: None,
            parent: None,
            apart: None,
            waiting: NOBODY,
        })?;
        Ok(number)
    }

    /// The one is a parent of the other.
    pub(crate) fn join(&mut self, parent: usize, child: usize) -> Result<(), NoMemory> {
        let (Some(above), Some(below)) = (self.state(parent), self.state(child)) else {
            return Ok(());
        };
        let edge = self.edges.len();
        self.edges.push(Edge {
            parent,
            child,
            next_child: above.child,
            next_parent: below.parent,
        })?;
        if let Some(above) = self.states.get_mut(parent) {
            above.child = Some(edge);
        }
        if let Some(below) = self.states.get_mut(child) {
            below.parent = Some(edge);
        }
        Ok(())
    }

    /// The one that stands in for the state, or it itself.
    fn heir_of(&mut self, number: usize) -> usize {
        let mut one = number;
        for _step in 0..self.states.len() {
            let next = self.next_heir(one);
            if next == one {
                break;
            }
            let behind = self.next_heir(next);
            if let Some(state) = self.states.get_mut(one) {
                state.heir = behind;
            }
            one = behind;
        }
        one
    }

    fn next_heir(&self, number: usize) -> usize {
        match self.states.get(number) {
            Some(state) => state.heir,
            None => number,
        }
    }

    /// The state in which all children of the state stand, if that is one; else it waits until two of them stand in one that didn't.
    /// No child comes any more once this was asked.
    pub(crate) fn common_heir(&mut self, number: usize) -> Result<Option<usize>, NoMemory> {
        let Some(state) = self.state(number) else {
            return Ok(None);
        };
        let Some(last) = state.child.and_then(|edge| self.edges.get(edge).copied()) else {
            return Ok(None);
        };
        if state.is_gone || state.is_kept {
            return Ok(None);
        }
        let heir = self.heir_of(last.child);
        match self.first_apart(state.apart.or(state.child), heir) {
            Some(edge) => {
                self.wait(number, heir, edge)?;
                Ok(None)
            },
            None => Ok(Some(heir)),
        }
    }

    /// The first edge to a child in whose place another one stands, from this edge on.
    fn first_apart(&mut self, first: Option<usize>, heir: usize) -> Option<usize> {
        let mut edge = first;
        for _child in 0..self.edges.len() {
            let place = edge?;
            let next = self.edges.get(place).copied()?;
            if self.heir_of(next.child) != heir {
                return Some(place);
            }
            edge = next.next_child;
        }
        None
    }

    /// The state waits until the stand-in of its last child is that of the child at the edge.
    fn wait(&mut self, number: usize, heir: usize, edge: usize) -> Result<(), NoMemory> {
        let (Some(state), Some(apart)) = (self.state(number), self.edges.get(edge).copied()) else {
            return Ok(());
        };
        if state.apart == Some(edge) {
            return Ok(());
        }
        if state.apart.is_none() {
            self.wait_for(heir, number)?;
        }
        let other = self.heir_of(apart.child);
        self.wait_for(other, number)?;
        if let Some(state) = self.states.get_mut(number) {
            state.apart = Some(edge);
        }
        Ok(())
    }

    /// One more waits for the state.
    fn wait_for(&mut self, number: usize, one: usize) -> Result<(), NoMemory> {
        let place = self.waiting.len();
        self.waiting.push(Waiting {
            state: one,
            next: None,
        })?;
        let queue = Queue {
            first: Some(place),
            last: Some(place),
            count: 1,
        };
        if let Some(state) = self.state(number) {
            let joined = self.join_queues(state.waiting, queue);
            self.set_queue(number, joined);
        }
        Ok(())
    }

    fn set_queue(&mut self, number: usize, queue: Queue) {
        if let Some(state) = self.states.get_mut(number) {
            state.waiting = queue;
        }
    }

    /// The one queue behind the other.
    fn join_queues(&mut self, one: Queue, other: Queue) -> Queue {
        let Some(last) = one.last else { return other };
        if other.first.is_none() {
            return one;
        }
        if let Some(waiting) = self.waiting.get_mut(last) {
            waiting.next = other.first;
        }
        Queue {
            first: one.first,
            last: other.last,
            count: one.count.saturating_add(other.count),
        }
    }

    /// The state goes, and the other one stands in for it. Those that may wait for that are put behind `going`.
    pub(crate) fn leave(
        &mut self,
        number: usize,
        heir: usize,
        going: &mut Vec<usize>,
    ) -> Result<(), NoMemory> {
        let (Some(state), Some(other)) = (self.state(number), self.state(heir)) else {
            return Ok(());
        };
        let fewer = if state.waiting.count < other.waiting.count {
            state.waiting
        } else {
            other.waiting
        };
        self.gather_waiting(fewer, going)?;
        let joined = self.join_queues(state.waiting, other.waiting);
        self.set_queue(heir, joined);
        if let Some(state) = self.states.get_mut(number) {
            state.is_gone = true;
            state.heir = heir;
        }
        Ok(())
    }

    /// Puts those of the queue behind the others.
    fn gather_waiting(&self, queue: Queue, going: &mut Vec<usize>) -> Result<(), NoMemory> {
        let mut place = queue.first;
        for _waiting in 0..queue.count {
            let Some(next) = place else { return Ok(()) };
            let Some(next) = self.waiting.get(next).copied() else {
                return Ok(());
            };
            going.push(next.state)?;
            place = next.next;
        }
        Ok(())
    }

    /// Puts the state's parents behind these.
    pub(crate) fn gather_parents(
        &self,
        number: usize,
        parents: &mut Vec<usize>,
    ) -> Result<(), NoMemory> {
        let Some(state) = self.state(number) else {
            return Ok(());
        };
        let mut edge = state.parent;
        for _parent in 0..self.edges.len() {
            let Some(next) = edge else { return Ok(()) };
            let Some(next) = self.edges.get(next).copied() else {
                return Ok(());
            };
            parents.push(next.parent)?;
            edge = next.next_parent;
        }
        Ok(())
    }
}
