//! The floors at the end of a checkpoint, read from bytes.

ghost use Rattle.std.specs.Prelude.{◌≡◌, nat_le};
ghost use Rattle.tardis_base.specs.Sizes.{most_sites};
ghost use Rattle.wire_item.specs.Fronts.{times};
ghost use Rattle.wire_item.specs.Takings.{Takes, Makes};
ghost use Rattle.rest_site.specs.Takings.{told_floor_front, AreRead};

use item_bytes::Reader;
use site_checkpoint::ToldFloor;
use std::alloc::Global;
use tardis_base::{ListOf, MAX_SITES, NoMemory, pushed};

/// The floors of all sites, in the order of their numbers.
pub(crate) type Floors = ListOf<ToldFloor>;

/// How many there are, and so many floors.
pub(crate) fn read_floors(
    reader: &mut Reader<'_>,
    alloc: Global,
) -> Option<Result<Floors, NoMemory>>
    ensures { AreRead reader.old result reader.new }
{
    let count = reader.u8()?;
    if is_floor_count(count) {
        counted_floors(reader, alloc, count)
    } else {
        None
    }
}

/// Whether there may be so many: one for each site.
fn is_floor_count(count: u8) -> bool
    ensures { result ≡ nat_le count most_sites }
{
    u16::from(count) <= MAX_SITES
}

/// So many floors.
fn counted_floors(
    reader: &mut Reader<'_>,
    alloc: Global,
    count: u8,
) -> Option<Result<Floors, NoMemory>>
    ensures { Makes (times told_floor_front count) reader.old result reader.new }
{
    let mut floors = Ok(ListOf::new(alloc));
    for _place in 0..count {
        let floor = read_floor(reader)?;
        floors = pushed(floors, Ok(floor));
    }
    Some(floors)
}

/// One floor.
fn read_floor(reader: &mut Reader<'_>) -> Option<ToldFloor>
    ensures { Takes told_floor_front reader.old result reader.new }
{
    let state = reader.id()?;
    let number = reader.u32()?;
    let stated = reader.u32()?;
    Some(ToldFloor {
        state,
        number,
        stated,
    })
}
