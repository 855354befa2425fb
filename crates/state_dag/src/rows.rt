//! Rows of states: all of one site, each below the one before it.
//!
//! Where each state joins the collected ones as soon as the next of its row has arrived, the table after the row differs from
//! that before it in one entry, whichever the length of the row.

ghost use Rattle.std.specs.Prelude.{◌≡◌, ◌+◌, ◌-◌, ◌<◌, [], ◌∷◌, List, length, IsTrue, IfOk, OnOk, MatchResult, slice_index_or, slice_set};
ghost use Rattle.std.specs.Prelude.{None, Some};
ghost use Rattle.std.specs.List.{list_all};
ghost use Rattle.tardis_base.specs.declared.ids.StateId.{StateId};
ghost use Rattle.tardis_base.specs.declared.records.Record.{Record};
ghost use Rattle.tardis_base.specs.Keys.{KeyWrite};
ghost use Rattle.tardis_base.specs.Valid.{are_writes};
ghost use Rattle.plain_dag.specs.Rows.{lengthened, row_left};
ghost use Rattle.tardis_base.specs.declared.ids.Slot.{Slot};
ghost use Rattle.state_dag.specs.declared.nodes.Node.{Node};
ghost use Rattle.state_dag.specs.Table.{is_kept_at, arrival_at, id_at};
ghost use Rattle.state_dag.specs.Stands.{Stands};
ghost use Rattle.state_dag.specs.Rows.{count_at, further, row_fault, AdvancedBy};
ghost use Rattle.state_dag.specs.declared.rows.RowFault.{RowFault};

use crate::StateDag;
use crate::changes::set_count;
use crate::nodes::Node;
use short_list::ShortList;
use std::alloc::Global;
use std::error::Error;
use std::fmt;
use tardis_base::{NoMemory, Slot, StateId};

/// Why a row of states did not arrive.
#[derive(Clone, Copy, Debug)]
pub enum RowFault {
    /// Sites are numbered from 1 up to the limit.
    BadSite,
    /// There was no state in it.
    Empty,
    /// The last one's number would not fit 32 bits.
    SeqEnd,
    NoMemory,
}

impl From<NoMemory> for RowFault {
    ghost use Rattle.std.specs.Prelude.{◌≡◌};
    ghost use Rattle.state_dag.specs.declared.rows.RowFault.TheVariants.{NoMemory as OutOfMemory};

    ghost from_gives = { λ _ fault. fault ≡ OutOfMemory };

    fn from(_: NoMemory) -> RowFault {
        RowFault::NoMemory
    }
}

impl fmt::Display for RowFault {
    fn fmt<W: fmt::Write>(&self, f: &mut fmt::Formatter<W>) -> fmt::Result {
        match self {
            RowFault::BadSite => f.write_str(
                "there is no site of that number: they are numbered from 1 to the limit",
            ),
            RowFault::Empty => f.write_str("there is no state in the row"),
            RowFault::SeqEnd => {
                f.write_str("the row would go on past the site's last sequence number")
            },
            RowFault::NoMemory => f.write_str("out of memory"),
        }
    }
}

impl Error for RowFault {}

impl StateDag {
    /// So many further states of the site arrive, the first below the state that arrived last and each other below the one
    /// before it, and each of these joins the collected ones as soon as the next has arrived. It answers the slot of the last,
    /// which is that of the state that had arrived last before.
    ///
    /// After a fault the table is as before.
    ///
    /// It takes constant time, whichever the number of states, but for the look-up of an id, whose cost grows with the logarithm
    /// of the number of kept states; for that alone it may take memory. What a row means is stated in `docs/MODEL.md`.
    pub fn advance(&mut self, site: u16, count: u32) -> Result<Slot, RowFault>
        ensures advanced { AdvancedBy self.old self.new site count result }
        ensures stands { OnOk result ((rs : List Record) (ks : List StateId) (wss : List (List KeyWrite)) → Stands self.old rs ks
            → length wss ≡ count → IsTrue (list_all are_writes wss)
            → Stands self.new (lengthened rs site wss) (row_left rs ks site wss)) }
        ensures slot { IfOk result (λ slot. id_at self.new slot ≡ Some (further self.old site count)) }
        ensures names { IfOk result (λ slot. (s : Slot) → (s ≡ slot → ⊥) → id_at self.new s ≡ id_at self.old s) }
        ensures kept { (s : Slot) → is_kept_at self.new s ≡ is_kept_at self.old s }
        ensures arrived { IfOk result (λ slot. arrival_at self.new slot ≡ self.old.known + count - 1) }
        ensures arrivals { IfOk result (λ slot. (s : Slot) → (s ≡ slot → ⊥) → arrival_at self.new s ≡ arrival_at self.old s) }
        ensures newest { IfOk result (λ slot. (s : Slot) → (s ≡ slot → ⊥) → IsTrue (is_kept_at self.old s) → arrival_at self.old s < arrival_at self.old slot) }
    {
        let last = self.row_end(site, count)?;
        let slot = self.last();
        let above = self.node(slot).id;
        let before = if count == 1 {
            above
        } else {
            StateId {
                site,
                sequence: last - 1,
            }
        };
        let id = StateId {
            site,
            sequence: last,
        };
        self.slots.put(id, slot)?;
        self.slots.remove(above);
        let parents = only(*self.nodes.allocator(), before);
        let known = self.known + u64::from(count);
        move_on(&mut self.nodes, slot, id, known - 1, parents);
        set_count(&mut self.counts, site, last);
        self.known = known;
        Ok(slot)
    }

    /// The number of the last of so many further states of the site.
    fn row_end(&self, site: u16, count: u32) -> Result<u32, RowFault>
        ensures number { IfOk result (λ last. last ≡ count_at self.now site + count) }
        ensures fault { MatchResult result (λ last. row_fault self.now site count ≡ None) (λ fault. row_fault self.now site count ≡ Some fault) }
    {
        if site == 0 || site > self.limits.sites {
            return Err(RowFault::BadSite);
        }
        if count == 0 {
            return Err(RowFault::Empty);
        }
        match self.counts[site as usize - 1].checked_add(count) {
            Some(last) => Ok(last),
            None => Err(RowFault::SeqEnd),
        }
    }
}

/// This one alone.
fn only(alloc: Global, id: StateId) -> ShortList<StateId>
    ensures { result.items ≡ id ∷ [] }
{
    let mut ids = ShortList::new(alloc);
    let _ = ids.push(id);
    ids
}

/// Puts another state in place of that at the slot, which has arrived after so many others, below these parents.
fn move_on(
    nodes: &mut Vec<Node>,
    slot: Slot,
    id: StateId,
    arrival: u64,
    parents: ShortList<StateId>,
)
    requires { slot.0 < length nodes.old.items }
    ensures { (d : Node) → nodes.new.items
        ≡ slice_set nodes.old.items slot.0 (record (slice_index_or nodes.old.items slot.0 d) { id = id; arrival = arrival; parents = parents }) }
{
    let node = &mut nodes[slot.0 as usize];
    node.id = id;
    node.arrival = arrival;
    node.parents = parents;
}
