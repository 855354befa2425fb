//! The two parts of a region.

ghost use Rattle.std.specs.Prelude.{◌≡◌, ◌++◌, IfOk};

use tardis_base::{NoMemory, Slot};

/// The kept states above several states, as far as not all of these share them. Both lists are in arrival order.
#[derive(Drop)]
pub struct Region {
    /// Those at or above some of the states, and not at or above all.
    pub apart: Vec<Slot>,
    /// Those at or above all of the states that are one of them, or have a child at or above some and not all.
    pub shared: Vec<Slot>,
}

/// Both regions, the second behind the first.
pub(crate) fn joined(first: Region, second: Region) -> Result<Region, NoMemory>
    ensures apart { IfOk result (λ both. both.apart.items ≡ first.apart.items ++ second.apart.items) }
    ensures shared { IfOk result (λ both. both.shared.items ≡ first.shared.items ++ second.shared.items) }
{
    let mut both = first;
    both.apart.extend_from_slice(second.apart.as_slice())?;
    both.shared.extend_from_slice(second.shared.as_slice())?;
    Ok(both)
}
