//! Lists of branches of forks, and whether one includes another.
#![tactic(auto)]

ghost use Rattle.std.specs.Prelude.{◌≡◌, ◌==◌, ℕ, ◌+◌, ◌-◌, ◌≤◌, ◌<◌, ◌||◌, Bool, true, false, Some, None, [], ◌∷◌, ◌++◌, length, take};
ghost use Rattle.std.specs.Prelude.{slice_index_or, vec_len, vec_capacity, if◌then◌else◌, IsTrue, IfOk, OnOk, OnErr, IfSome};
ghost use Rattle.fork_path.specs.Pairs.{are_ascending_pairs, is_same_pair, has_pair, has_pairs, with_pair, without_pairs_of, groups_of};
ghost use Rattle.fork_path.specs.Tiles.{keys_of, some_holds};

mod images;
mod tile_lists;
mod tiles;

use crate::tile_lists::{count_of, drop_fork, merged, put_tile, tile_near, with_spare};
pub use crate::tiles::Tile;
use std::alloc::{AllocError, Global};
use std::marker::Model;

/// How many tiles a path can have at most. No memory holds more.
const MOST_TILES: usize = 1 << 57;

/// Pairs of a fork and the number of one of its branches, ascending by fork and then branch, each once.
///
/// They are kept as tiles of 16 bytes, each for the pairs of 32 forks in a row and two branches in a row. Forks that stand
/// close together share tiles: of a long history of forks of two branches each, a tile has some twenty pairs, and at worst one.
#[derive(Drop)]
pub struct ForkPath {
    tiles: Vec<Tile>,
}

impl Model for ForkPath {
    ghost use Rattle.std.specs.Prelude.{IsTrue, ◌-◌, ◌^◌, ◌≤◌, min, vec_len, vec_capacity};
    ghost use Rattle.fork_path.specs.Pairs.{Pairs, are_ascending_pairs};
    ghost use Rattle.std.specs.List.{All};
    ghost use Rattle.fork_path.specs.Tiles.{keys_of, pairs_of, HoldsPair};

    ghost Value = { Pairs };

    ghost view = { λ p. record { pairs = pairs_of p.tiles.items; room = min (vec_capacity p.tiles) (2 ^ 57) - vec_len p.tiles } };

    ghost invariant = { λ p. IsTrue (are_ascending_pairs (keys_of p.tiles.items)) × All HoldsPair p.tiles.items × (vec_len p.tiles ≤ 2 ^ 57) };
}

impl ForkPath {
    /// No pairs. It takes no memory.
    pub fn new(alloc: Global) -> ForkPath
        ensures { result.pairs ≡ [] }
    {
        ForkPath {
            tiles: Vec::new(alloc),
        }
    }

    /// The number of pairs. The cost grows with the number of tiles.
    pub fn len(&self) -> usize
        ensures count { result ≡ length self.now.pairs }
        ensures ascending { IsTrue (are_ascending_pairs self.now.pairs) }
    {
        count_of(self.tiles.as_slice())
    }

    /// Whether there are none.
    pub fn is_empty(&self) -> bool
        ensures { result ≡ (length self.now.pairs == 0) }
    {
        self.tiles.is_empty()
    }

    /// Whether the pair is one of these, by a binary search.
    pub fn contains(&self, fork: u32, branch: u32) -> bool
        ensures { result ≡ has_pair (fork, branch) self.now.pairs }
    {
        let tiles = self.tiles.as_slice();
        let tile = Tile::of(fork, branch);
        let (_, own) = tile_near(tiles, tiles.len(), tile);
        tile.is_within(own)
    }

    /// Whether every pair of `other` is one of these.
    ///
    /// It walks the tiles of `other` from the last on, and ends at the first that has a pair which isn't here. Each is looked
    /// for next to where the last one was found, and if it isn't there by a binary search.
    pub fn includes(&self, other: &ForkPath) -> bool
        ensures { result ≡ has_pairs self.now.pairs other.now.pairs }
    {
        includes_tiles(self.tiles.as_slice(), other.tiles.as_slice())
    }

    /// Makes room for so many more pairs, and for no others. With no memory the pairs and the room stay.
    pub fn reserve(&mut self, pairs: u32) -> Result<(), AllocError>
        ensures same { self.new.pairs ≡ self.old.pairs }
        ensures room { OnOk result (pairs ≤ self.new.room) }
        ensures more { self.old.room ≤ self.new.room }
    {
        if MOST_TILES - self.tiles.len() < pairs as usize {
            return Err(AllocError);
        }
        self.tiles.reserve_exact(pairs as usize)?;
        Ok(())
    }

    /// Puts the pair in its place. It takes no memory, and room only where it is the first of its group.
    ///
    /// The cost grows with the number of tiles behind that place.
    pub fn with_pair(&mut self, fork: u32, branch: u32)
        requires { 0 < self.old.room }
        ensures added { self.new.pairs ≡ with_pair (fork, branch) self.old.pairs }
        ensures ascending { IsTrue (are_ascending_pairs self.new.pairs) }
        ensures pairs { (p : ℕ × ℕ) → has_pair p self.new.pairs ≡ (is_same_pair p (fork, branch) || has_pair p self.old.pairs) }
        ensures count { length self.new.pairs ≡ (if has_pair (fork, branch) self.old.pairs then length self.old.pairs else length self.old.pairs + 1) }
        ensures room { self.old.room ≤ self.new.room + 1 }
        ensures exact { self.new.room + length (groups_of self.new.pairs) ≡ self.old.room + length (groups_of self.old.pairs) }
    {
        put_tile(&mut self.tiles, Tile::of(fork, branch));
    }

    /// Removes all pairs of the fork. Each group that is left with no pair is room for another then.
    ///
    /// It is a binary search, and the cost grows with the number of the fork's own tiles; with that of all tiles only where one
    /// is left with no pair.
    pub fn without_fork(&mut self, fork: u32)
        ensures room { self.new.room + length (groups_of self.new.pairs) ≡ self.old.room + length (groups_of self.old.pairs) }
        ensures pairs { self.new.pairs ≡ without_pairs_of fork self.old.pairs }
        ensures ascending { IsTrue (are_ascending_pairs self.new.pairs) }
    {
        drop_fork(&mut self.tiles, fork);
    }

    /// Puts every pair of `other` in its place. With no memory the pairs stay.
    ///
    /// The cost grows with the two numbers of tiles: the tiles that both begin with are compared and then copied at once.
    /// Where there are none yet, those of `other` are copied at once, and there is room for two more then; where `other` has
    /// none either, no memory is taken.
    pub fn unite(&mut self, other: &ForkPath) -> Result<(), AllocError>
        ensures pairs { OnOk result ((p : ℕ × ℕ) → has_pair p self.new.pairs ≡ (has_pair p other.now.pairs || has_pair p self.old.pairs)) }
        ensures same { OnErr result (self.new.pairs ≡ self.old.pairs) }
        ensures ascending { IsTrue (are_ascending_pairs self.new.pairs) }
    {
        if self.tiles.is_empty() {
            let others = other.tiles.as_slice();
            if others.is_empty() {
                return Ok(());
            }
            self.tiles.reserve_exact(with_spare(others.len()))?;
            self.tiles.extend_from_slice(others)?;
            return Ok(());
        }
        let alloc = *self.tiles.allocator();
        let tiles = merged(alloc, self.tiles.as_slice(), other.tiles.as_slice())?;
        if MOST_TILES < tiles.len() {
            return Err(AllocError);
        }
        self.tiles = tiles;
        Ok(())
    }
}

/// Whether every pair of the other tiles is one of these tiles.
fn includes_tiles(own: &[Tile], others: &[Tile]) -> bool
    requires { IsTrue (are_ascending_pairs (keys_of own.now)) }
    ensures inside { result ≡ true → (p : ℕ × ℕ) → some_holds others.now p ≡ true → some_holds own.now p ≡ true }
    ensures outside { result ≡ false → (p : ℕ × ℕ) × (some_holds others.now p ≡ true) × (some_holds own.now p ≡ false) }
{
    let mut last = own.len();
    for place in (0..others.len()).rev() {
        let (found, tile) = tile_near(own, last.saturating_sub(1), others[place]);
        if !others[place].is_within(tile) {
            return false;
        }
        last = found;
    }
    true
}
