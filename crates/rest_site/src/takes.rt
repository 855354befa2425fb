//! Bytes are taken back, one thing behind another.

ghost use Rattle.std.specs.Prelude.{◌≡◌, ◌<◌, true, false, length, Ok};
ghost use Rattle.site_lives.specs.Acquainted.{Acquainted};
ghost use Rattle.session_core.specs.Machine.{opened_with};
ghost use Rattle.session_core.specs.Rests.{is_quiet};
ghost use Rattle.rest_site.specs.Stands.{AcquaintedStands, StandsForSome, held_site};
ghost use Rattle.site_lives.specs.Bytes.{TakesBack};
ghost use Rattle.rest_site.specs.Takings.{Leads};

use crate::loading::Begin;
use crate::things::{read_thing, take};
use item_bytes::Reader;
use session_core::SiteCore;
use site_checkpoint::Checkpoint;
use site_lives::Lives;
use tardis_base::NoMemory;

/// Takes back all that stands in the bytes; `false` where that can't be done.
pub(crate) fn take_all(
    core: &mut SiteCore,
    lives: &mut Lives,
    loading: &mut Option<Checkpoint>,
    begin: &Begin,
    bytes: &[u8],
) -> Result<bool, NoMemory>
    requires quiet { is_quiet core.old ≡ true }
    requires stands { StandsForSome core.old loading.old }
    ensures taken { result ≡ Ok true → (a : Acquainted) → AcquaintedStands (held_site core.old lives.old loading.old) a
        → (behind : Acquainted) × (TakesBack a bytes.now behind × AcquaintedStands (held_site core.new lives.new loading.new) behind) }
    ensures refused { result ≡ Ok false → (a behind : Acquainted) → AcquaintedStands (held_site core.old lives.old loading.old) a → TakesBack a bytes.now behind → ⊥ }
    ensures stands { StandsForSome core.new loading.new }
    ensures opening { opened_with core.new ≡ opened_with core.old }
{
    let mut reader = Reader::new(bytes);
    for _place in 0..bytes.len() {
        if reader.is_done() {
            return Ok(true);
        }
        let taken = take_next(core, lives, loading, begin, &mut reader)?;
        if !taken {
            return Ok(false);
        }
    }
    Ok(true)
}

/// Takes back the thing at the front of the bytes that are left, of which there are some.
fn take_next(
    core: &mut SiteCore,
    lives: &mut Lives,
    loading: &mut Option<Checkpoint>,
    begin: &Begin,
    reader: &mut Reader<'_>,
) -> Result<bool, NoMemory>
    requires quiet { is_quiet core.old ≡ true }
    requires stands { StandsForSome core.old loading.old }
    requires left { 0 < length reader.old }
    ensures taken { result ≡ Ok true → Leads (held_site core.old lives.old loading.old) (held_site core.new lives.new loading.new) reader.old reader.new }
    ensures shorter { result ≡ Ok true → length reader.new < length reader.old }
    ensures quiet { result ≡ Ok true → is_quiet core.new ≡ true }
    ensures refused { result ≡ Ok false → (a behind : Acquainted) → AcquaintedStands (held_site core.old lives.old loading.old) a → TakesBack a reader.old behind → ⊥ }
    ensures stands { StandsForSome core.new loading.new }
    ensures opening { opened_with core.new ≡ opened_with core.old }
{
    match read_thing(reader, begin.alloc) {
        Some(Ok(thing)) => take(core, lives, loading, begin, thing),
        Some(Err(NoMemory)) => Err(NoMemory),
        None => Ok(false),
    }
}
