//! A checkpoint is loaded, part by part, and at its end the site that was told takes the place of the one that opened.

ghost use Rattle.std.specs.Prelude.{◌≡◌, ◌==◌, None, Some, IsTrue, IfOk, OnErr};
ghost use Rattle.std.specs.List.{list_all};
ghost use Rattle.tardis_base.specs.Valid.{are_limits, is_record};
ghost use Rattle.plain_site.specs.Site.{Site};
ghost use Rattle.plain_checkpoint.specs.Checkpoints.{Told, ToldState, ToldLine, ToldGone};
ghost use Rattle.site_lives.specs.Things.{is_blank};
ghost use Rattle.session_core.specs.Machine.{SiteStands, opened_with};
ghost use Rattle.site_checkpoint.specs.Ends.{floors_told};
ghost use Rattle.rest_site.specs.Stands.{LoadingStands, StandsForSome};
ghost use Rattle.rest_site.specs.Takings.{TakesPart, EndTakenBy};

use crate::floors::Floors;
use ceiling_book::KnownFloor;
use session_core::SiteCore;
use site_checkpoint::Checkpoint;
use std::alloc::Global;
use std::hash::RandomState;
use std::mem;
use tardis_base::{NoMemory, Record, StateId};

/// With what a checkpoint begins: where its memory comes from, and the seed by which its keys are hashed.
#[derive(Clone, Copy)]
pub(crate) struct Begin {
    pub(crate) alloc: Global,
    pub(crate) keys: RandomState,
}

/// The checkpoint that is loaded, taken out; one that begins, where none is.
fn taken_out(
    core: &SiteCore,
    loading: &mut Option<Checkpoint>,
    begin: &Begin,
) -> Result<Checkpoint, NoMemory>
    requires { IsTrue (are_limits core.now.store.table.limits) }
    ensures stands { IfOk result (λ loaded. (t : Told) → LoadingStands core.now.store.table.limits loading.old t
        → LoadingStands core.now.store.table.limits (Some loaded) t) }
    ensures none { OnErr result (loading.old ≡ None) }
    ensures taken { loading.new ≡ None }
{
    match loading.take() {
        Some(checkpoint) => Ok(checkpoint),
        None => Checkpoint::new(begin.alloc, begin.keys, core.store().dag().limits()),
    }
}

/// Puts the checkpoint back.
fn put_back(loading: &mut Option<Checkpoint>, checkpoint: Checkpoint)
    ensures { loading.new ≡ Some checkpoint }
{
    drop(mem::replace(loading, Some(checkpoint)));
}

/// The state of this record is told to have arrived.
pub(crate) fn load_state(
    core: &SiteCore,
    loading: &mut Option<Checkpoint>,
    begin: &Begin,
    rec: Record,
) -> Result<bool, NoMemory>
    requires stands { StandsForSome core.now loading.old }
    requires valid { IsTrue (is_record rec) }
    ensures { TakesPart core.now.store.table.limits loading.old loading.new (ToldState rec) result }
{
    let mut checkpoint = taken_out(core, loading, begin)?;
    let taken = checkpoint.take_state(rec);
    put_back(loading, checkpoint);
    taken
}

/// So many further states of the site are told, in a line.
pub(crate) fn load_line(
    core: &SiteCore,
    loading: &mut Option<Checkpoint>,
    begin: &Begin,
    site: u16,
    count: u32,
) -> Result<bool, NoMemory>
    requires stands { StandsForSome core.now loading.old }
    ensures { TakesPart core.now.store.table.limits loading.old loading.new (ToldLine site count) result }
{
    let mut checkpoint = taken_out(core, loading, begin)?;
    let taken = checkpoint.take_line(site, count);
    put_back(loading, checkpoint);
    taken
}

/// The state is told to be gone.
pub(crate) fn load_gone(
    core: &SiteCore,
    loading: &mut Option<Checkpoint>,
    begin: &Begin,
    id: StateId,
) -> Result<bool, NoMemory>
    requires stands { StandsForSome core.now loading.old }
    ensures { TakesPart core.now.store.table.limits loading.old loading.new (ToldGone id) result }
{
    let mut checkpoint = taken_out(core, loading, begin)?;
    let taken = checkpoint.take_gone(id);
    put_back(loading, checkpoint);
    Ok(taken)
}

/// The checkpoint ends with these floors, and the site that it told takes this one's place, where this one is blank and the floors fit.
/// Nothing is loaded any more then, whatever came of it.
pub(crate) fn end(
    core: &mut SiteCore,
    loading: &mut Option<Checkpoint>,
    begin: &Begin,
    floors: &Floors,
) -> Result<bool, NoMemory>
    requires stands { StandsForSome core.old loading.old }
    ensures taken { (site : Site) (t : Told) → SiteStands core.old site → LoadingStands site.limits loading.old t
        → EndTakenBy core.new (floors_told floors.now) site t result }
    ensures loading { loading.new ≡ None }
    ensures opening { opened_with core.new ≡ opened_with core.old }
{
    let checkpoint = taken_out(core, loading, begin)?;
    if !is_blank(core) {
        drop(checkpoint);
        return Ok(false);
    }
    match checkpoint.end(core.book().own_site(), floors.as_slice())? {
        Some(site) => {
            drop(mem::replace(core, site));
            Ok(true)
        },
        None => Ok(false),
    }
}

/// Whether only the root is known, and no floor was promised.
fn is_blank(core: &SiteCore) -> bool
    ensures { (site : Site) → SiteStands core.now site → result ≡ is_blank site }
{
    core.store().dag().known() == 1 && are_unpromised(core.book().floors())
}

/// Whether none of these floors was promised.
fn are_unpromised(floors: &[KnownFloor]) -> bool
    ensures { result ≡ list_all (λ f. f.number == 0) floors.now }
{
    floors.iter().all(|floor| floor.number == 0)
}
