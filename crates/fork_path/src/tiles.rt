//! Tiles: pairs of forks and branches that stand close together, as the bits of a number.

ghost use Rattle.std.specs.Prelude.{ℕ, ◌≡◌, ◌<◌, ◌==◌, ◌&&◌, ◌||◌, ◌/◌, true, false, not};
ghost use Rattle.fork_path.specs.Pairs.{is_same_pair, is_pair_before};
ghost use Rattle.fork_path.specs.Tiles.{key_of, bit_of, holds, HoldsPair};

/// How many forks a tile has bits for.
const FORKS: u32 = 32;

/// How many branches of each fork it has bits for.
const BRANCHES: u32 = 2;

/// Pairs of 32 forks in a row, and of two branches in a row, as `ForkPath::tiles` lends them.
#[derive(Clone, Copy, PartialEq, Eq)]
pub struct Tile {
    /// The numbers of its forks, divided by 32.
    pub forks: u32,
    /// The numbers of its branches, divided by two.
    pub branches: u32,
    /// A bit for each pair, by fork and then branch.
    pub bits: u64,
}

impl Tile {
    /// The tile of one pair.
    pub(crate) fn of(fork: u32, branch: u32) -> Tile
        ensures { (p : ℕ × ℕ) → holds result p ≡ is_same_pair p (fork, branch) }
    {
        Tile {
            forks: fork / FORKS,
            branches: branch / BRANCHES,
            bits: 1 << place_of_bit(fork, branch),
        }
    }

    /// A tile of no pairs in the place of this one.
    pub(crate) fn cleared(self) -> Tile
        ensures key { key_of result ≡ key_of self }
        ensures pairs { (p : ℕ × ℕ) → holds result p ≡ false }
    {
        Tile { bits: 0, ..self }
    }

    /// Whether no pair is left.
    pub(crate) fn is_empty(self) -> bool
        ensures bits { result ≡ (self.bits == 0) }
        ensures some { result ≡ false → HoldsPair self }
    {
        self.bits == 0
    }

    /// Whether it stands before another.
    pub(crate) fn is_before(self, other: Tile) -> bool
        ensures { result ≡ is_pair_before (key_of self) (key_of other) }
    {
        self.forks < other.forks || self.forks == other.forks && self.branches < other.branches
    }

    /// Whether they have bits for the same pairs.
    pub(crate) fn is_beside(self, other: Tile) -> bool
        ensures { result ≡ is_same_pair (key_of self) (key_of other) }
    {
        self.forks == other.forks && self.branches == other.branches
    }

    /// Whether every pair is one of the other tile, which has bits for the same pairs.
    pub(crate) fn is_within(self, other: Tile) -> bool
        requires { key_of self ≡ key_of other }
        ensures inside { result ≡ true → (p : ℕ × ℕ) → holds self p ≡ true → holds other p ≡ true }
        ensures outside { result ≡ false → (p : ℕ × ℕ) × (holds self p ≡ true) × (holds other p ≡ false) }
    {
        self.bits & other.bits == self.bits
    }

    /// The pairs of this tile and of another, which has bits for the same pairs.
    pub(crate) fn joined(self, other: Tile) -> Tile
        requires { key_of self ≡ key_of other }
        ensures key { key_of result ≡ key_of self }
        ensures pairs { (p : ℕ × ℕ) → holds result p ≡ (holds self p || holds other p) }
    {
        Tile {
            bits: self.bits | other.bits,
            ..self
        }
    }

    /// Whether it has bits for pairs of the fork.
    pub(crate) fn is_of(self, fork: u32) -> bool
        ensures { result ≡ (self.forks == fork / 32) }
    {
        self.forks == fork / FORKS
    }

    /// The pairs of the other forks.
    pub(crate) fn without(self, fork: u32) -> Tile
        ensures key { key_of result ≡ key_of self }
        ensures pairs { (p : ℕ × ℕ) → holds result p ≡ (not (p.0 == fork) && holds self p) }
    {
        if self.forks != fork / FORKS {
            return self;
        }
        let first = 1u64 << place_of_bit(fork, 0);
        let second = 1u64 << place_of_bit(fork, 1);
        Tile {
            bits: self.bits & !first & !second,
            ..self
        }
    }
}

/// The place of the pair's bit in its tile.
fn place_of_bit(fork: u32, branch: u32) -> u32
    ensures place { result ≡ bit_of (fork, branch) }
    ensures bound { result < 64 }
{
    fork % FORKS * BRANCHES + branch % BRANCHES
}
