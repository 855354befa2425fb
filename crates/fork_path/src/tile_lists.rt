//! Ascending tiles: where one is, and two lists as one.

ghost use Rattle.std.specs.Prelude.{◌≡◌, ◌==◌, ℕ, ◌+◌, ◌≤◌, ◌<◌, ◌^◌, ◌||◌, ◌&&◌, not, true, false, None, ◌∷◌, ◌++◌, length, take};
ghost use Rattle.std.specs.Prelude.{slice_index_or, vec_len, vec_capacity, IsTrue, IfOk, OnOk};
ghost use Rattle.std.specs.List.{All, AllWithin};
ghost use Rattle.std.specs.List.Sorted.{IsPartitionPoint};
ghost use Rattle.fork_path.specs.Pairs.{is_pair_before, are_ascending_pairs, is_same_pair, has_pair, with_pair, with_each};
ghost use Rattle.fork_path.specs.Tiles.{key_of, keys_of, holds, some_holds, pairs_of, HoldsPair};

use crate::tiles::Tile;
use std::alloc::{AllocError, Global};

/// How many pairs the tiles have.
pub fn count_of(tiles: &[Tile]) -> usize
    requires { length tiles.now ≤ 2 ^ 57 }
    ensures { IsTrue (are_ascending_pairs (keys_of tiles.now)) → result ≡ length (pairs_of tiles.now) }
{
    let mut pairs = 0;
    for tile in tiles {
        pairs += tile.bits.count_ones() as usize;
    }
    pairs
}

/// The place of the first tile that doesn't stand before this one.
fn place_of(tiles: &[Tile], tile: Tile) -> usize
    ensures bound { result ≤ length tiles.now }
    ensures place { IsTrue (are_ascending_pairs (keys_of tiles.now))
        → IsPartitionPoint (λ p. is_pair_before p (key_of tile) ≡ true) (λ p. is_pair_before p (key_of tile) ≡ false) (keys_of tiles.now) result }
{
    tiles.partition_point(|own| own.is_before(tile))
}

/// Whether the tile for the same pairs is at this place.
fn is_at(tiles: &[Tile], place: usize, tile: Tile) -> bool
    ensures here { result ≡ true → (place < length tiles.now) × (key_of (slice_index_or tiles.now place tile) ≡ key_of tile) }
    ensures not_here { result ≡ false → place < length tiles.now → is_same_pair (key_of tile) (key_of (slice_index_or tiles.now place tile)) ≡ false }
{
    place < tiles.len() && tile.is_beside(tiles[place])
}

/// The place of the tile for the same pairs, if there is one: this one, or else what a binary search finds.
fn place_near(tiles: &[Tile], guess: usize, tile: Tile) -> usize
    ensures { IsTrue (are_ascending_pairs (keys_of tiles.now))
        → (result < length tiles.now → is_same_pair (key_of tile) (key_of (slice_index_or tiles.now result tile)) ≡ false)
        → has_pair (key_of tile) (keys_of tiles.now) ≡ false }
{
    if is_at(tiles, guess, tile) {
        guess
    } else {
        place_of(tiles, tile)
    }
}

/// The tile for the same pairs, and its place, looked for at a likely place first. Where there is none, one of no pairs.
pub fn tile_near(tiles: &[Tile], guess: usize, tile: Tile) -> (usize, Tile)
    ensures key { key_of result.1 ≡ key_of tile }
    ensures pairs { IsTrue (are_ascending_pairs (keys_of tiles.now))
        → (p : ℕ × ℕ) → holds tile p ≡ true → some_holds tiles.now p ≡ holds result.1 p }
{
    let place = place_near(tiles, guess, tile);
    if is_at(tiles, place, tile) {
        (place, tiles[place])
    } else {
        (place, tile.cleared())
    }
}

/// Puts the pairs of the tile among those of ascending tiles.
pub fn put_tile(tiles: &mut Vec<Tile>, tile: Tile)
    requires { vec_len tiles.old < vec_capacity tiles.old }
    ensures ascending { IsTrue (are_ascending_pairs (keys_of tiles.old.items)) → IsTrue (are_ascending_pairs (keys_of tiles.new.items)) }
    ensures filled { HoldsPair tile → All HoldsPair tiles.old.items → All HoldsPair tiles.new.items }
    ensures pairs { (p : ℕ × ℕ) → some_holds tiles.new.items p ≡ (holds tile p || some_holds tiles.old.items p) }
    ensures len { vec_len tiles.new ≤ vec_len tiles.old + 1 }
    ensures capacity { vec_capacity tiles.new ≡ vec_capacity tiles.old }
{
    let place = place_of(tiles.as_slice(), tile);
    if is_at(tiles.as_slice(), place, tile) {
        tiles[place] = tiles[place].joined(tile);
    } else {
        let _ = tiles.insert(place, tile);
    }
}

/// Removes the pairs of a fork, and the tiles that are left with no pair.
///
/// It is a binary search and goes over the fork's own tiles, and over all tiles only where one is left with no pair.
pub fn drop_fork(tiles: &mut Vec<Tile>, fork: u32)
    ensures ascending { IsTrue (are_ascending_pairs (keys_of tiles.old.items)) → IsTrue (are_ascending_pairs (keys_of tiles.new.items)) }
    ensures filled { All HoldsPair tiles.old.items → All HoldsPair tiles.new.items }
    ensures pairs { IsTrue (are_ascending_pairs (keys_of tiles.old.items))
        → (p : ℕ × ℕ) → some_holds tiles.new.items p ≡ (not (p.0 == fork) && some_holds tiles.old.items p) }
    ensures len { vec_len tiles.new ≤ vec_len tiles.old }
    ensures capacity { vec_capacity tiles.new ≡ vec_capacity tiles.old }
{
    if !clear_fork(tiles.as_mut_slice(), fork) {
        return;
    }
    tiles.retain(|tile| !tile.is_empty());
}

/// Clears the bits of a fork's pairs, and answers whether a tile is left with no pair. The fork's tiles stand in a row.
fn clear_fork(tiles: &mut [Tile], fork: u32) -> bool
    ensures keys { keys_of tiles.new ≡ keys_of tiles.old }
    ensures pairs { IsTrue (are_ascending_pairs (keys_of tiles.old))
        → (p : ℕ × ℕ) → some_holds tiles.new p ≡ (not (p.0 == fork) && some_holds tiles.old p) }
    ensures filled { result ≡ false → All HoldsPair tiles.old → All HoldsPair tiles.new }
{
    let first = place_of(tiles, Tile::of(fork, 0));
    let mut is_one_empty = false;
    for place in first..tiles.len() {
        if !tiles[place].is_of(fork) {
            return is_one_empty;
        }
        let left = tiles[place].without(fork);
        tiles[place] = left;
        if left.is_empty() {
            is_one_empty = true;
        }
    }
    is_one_empty
}

/// How many tiles at the front of the two lists are the same.
fn common_front(a: &[Tile], b: &[Tile]) -> usize
    ensures first { result ≤ length a.now }
    ensures second { result ≤ length b.now }
    ensures same { take result a.now ≡ take result b.now }
{
    let most = a.len().min(b.len());
    for place in 0..most {
        if a[place] != b[place] {
            return place;
        }
    }
    most
}

/// So many tiles, and a few that may come later: of the branch by which a state is reached, and of its first gain.
pub fn with_spare(tiles: usize) -> usize {
    tiles.saturating_add(2)
}

/// The pairs of both lists of ascending tiles.
pub fn merged(alloc: Global, own: &[Tile], others: &[Tile]) -> Result<Vec<Tile>, AllocError>
    ensures ascending { IsTrue (are_ascending_pairs (keys_of own.now)) → IsTrue (are_ascending_pairs (keys_of others.now))
        → IfOk result (λ tiles. IsTrue (are_ascending_pairs (keys_of tiles.items))) }
    ensures filled { All HoldsPair own.now → All HoldsPair others.now → IfOk result (λ tiles. All HoldsPair tiles.items) }
    ensures pairs { IfOk result (λ tiles. (p : ℕ × ℕ) → some_holds tiles.items p ≡ (some_holds others.now p || some_holds own.now p)) }
{
    let front = common_front(own, others);
    let (own_rest, others_rest) = (&own[front..], &others[front..]);
    let mut tiles = Vec::with_capacity(
        alloc,
        with_spare(own.len().saturating_add(others_rest.len())),
    )?;
    tiles.extend_from_slice(&own[..front])?;
    add_merged(&mut tiles, own_rest, others_rest)?;
    Ok(tiles)
}

/// Puts the pairs of both lists of ascending tiles behind these tiles.
fn add_merged(tiles: &mut Vec<Tile>, own: &[Tile], others: &[Tile]) -> Result<(), AllocError>
    ensures keys { IsTrue (are_ascending_pairs (keys_of own.now)) → IsTrue (are_ascending_pairs (keys_of others.now))
        → OnOk result (keys_of tiles.new.items ≡ keys_of tiles.old.items ++ with_each (keys_of others.now) (keys_of own.now)) }
    ensures filled { All HoldsPair tiles.old.items → All HoldsPair own.now → All HoldsPair others.now → OnOk result (All HoldsPair tiles.new.items) }
    ensures pairs { OnOk result ((p : ℕ × ℕ)
        → some_holds tiles.new.items p ≡ (some_holds tiles.old.items p || (some_holds others.now p || some_holds own.now p))) }
{
    let mut rest = own;
    for tile in others {
        let (before, joined, behind) = around(rest, *tile);
        tiles.extend_from_slice(before)?;
        tiles.push(joined)?;
        rest = behind;
    }
    tiles.extend_from_slice(rest)?;
    Ok(())
}

/// The place of the first tile that doesn't stand before this one, looked for from the first on.
fn first_not_before(tiles: &[Tile], tile: Tile) -> usize
    ensures bound { result ≤ length tiles.now }
    ensures before { AllWithin (λ p. is_pair_before p (key_of tile) ≡ true) (keys_of tiles.now) 0 result }
    ensures behind { result < length tiles.now → is_pair_before (key_of (slice_index_or tiles.now result tile)) (key_of tile) ≡ false }
{
    for place in 0..tiles.len() {
        if !tiles[place].is_before(tile) {
            return place;
        }
    }
    tiles.len()
}

/// The tiles that stand before this one, this one with the pairs of the tile for the same pairs, and the tiles behind it.
fn around(tiles: &[Tile], tile: Tile) -> (&[Tile], Tile, &[Tile])
    ensures key { key_of result.1 ≡ key_of tile }
    ensures keys { IsTrue (are_ascending_pairs (keys_of tiles.now))
        → with_pair (key_of tile) (keys_of tiles.now) ≡ keys_of result.0.now ++ key_of tile ∷ keys_of result.2.now }
    ensures filled { HoldsPair tile → All HoldsPair tiles.now → All HoldsPair result.0.now × HoldsPair result.1 × All HoldsPair result.2.now }
    ensures pairs { (p : ℕ × ℕ)
        → (holds tile p || some_holds tiles.now p) ≡ (some_holds result.0.now p || (holds result.1 p || some_holds result.2.now p)) }
{
    let place = first_not_before(tiles, tile);
    if is_at(tiles, place, tile) {
        (
            &tiles[..place],
            tiles[place].joined(tile),
            &tiles[place + 1..],
        )
    } else {
        (&tiles[..place], tile, &tiles[place..])
    }
}
