//! What a table lends of itself for an image of a site: its counts, and its entries in arrival order.

ghost use Rattle.std.specs.Prelude.{◌≡◌, ◌<◌, length, Some, slice_get};
ghost use Rattle.fork_path.specs.Images.{AreTiles};
ghost use Rattle.state_dag.specs.Images.{IsTable, entry_of_parts};

use crate::StateDag;
use fork_path::Tile;
use tardis_base::{Slot, StateId};

/// What a table says of a kept state.
#[derive(Clone, Copy)]
pub struct EntryParts<'a> {
    pub slot: Slot,
    pub id: StateId,
    /// How many states had arrived before it.
    pub arrival: u64,
    pub parents: &'a [StateId],
    /// All children in arrival order, collected ones too.
    pub children: &'a [StateId],
    /// The slots in which the children stand, in their order.
    pub stand_ins: &'a [Slot],
    pub path: &'a [Tile],
}

impl StateDag {
    /// How many states of each site arrived, in the order of the sites' numbers. They are lent, in constant time.
    ///
    /// With the limits, these and the entries are all that a table is seen as: with the root, it knows as many states as are
    /// counted here.
    pub fn counts(&self) -> &[u32]
        ensures is { result.now ≡ self.now.counts }
        ensures table { IsTable self.now }
    {
        self.counts.as_slice()
    }

    /// The entry of the kept state that arrived at this place among the kept ones. It is lent, in constant time.
    pub fn entry(&self, place: usize) -> EntryParts<'_>
        requires { place < length self.now.entries }
        ensures entry { slice_get self.now.entries place ≡ Some (entry_of_parts result) }
        ensures tiles { AreTiles result.path.now }
    {
        let slot = self.order.kept()[place];
        let node = self.node(slot);
        EntryParts {
            slot,
            id: node.id,
            arrival: node.arrival,
            parents: node.parents.as_slice(),
            children: node.children.as_slice(),
            stand_ins: node.stand_ins.as_slice(),
            path: node.path.tiles(),
        }
    }
}
