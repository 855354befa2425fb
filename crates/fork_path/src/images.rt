//! A path as an image of a site has it: its tiles.

ghost use Rattle.std.specs.Prelude.{◌≡◌};
ghost use Rattle.fork_path.specs.Tiles.{pairs_of};
ghost use Rattle.fork_path.specs.Images.{AreTiles};

use crate::ForkPath;
use crate::tiles::Tile;

impl ForkPath {
    /// The tiles of the path, in their order. They are lent, in constant time.
    pub fn tiles(&self) -> &[Tile]
        ensures pairs { pairs_of result.now ≡ self.now.pairs }
        ensures tiles { AreTiles result.now }
    {
        self.tiles.as_slice()
    }
}
