//! Exports of a site.

ghost use Rattle.std.specs.Prelude.{◌≡◌, ◌<◌, ◌≤◌, ◌⊎◌, false, List, ℕ, Err, length, IsTrue};
ghost use Rattle.tardis_base.specs.Valid.{are_limits};
ghost use Rattle.tardis_io.specs.Told.{WhileTold};
ghost use Rattle.tardis_io.specs.Faults.{Rose};
ghost use Rattle.frame_cut.specs.Frames.{IsCut};
ghost use Rattle.site_run.specs.Endings.{most_taken};
ghost use Rattle.plain_site.specs.Site.{Site, opening};
ghost use Rattle.plain_site.specs.Sound.{IsSound};
ghost use Rattle.branch_export.specs.Exported.{Exported};
ghost use Rattle.branch_export.specs.Imported.{has_given};
ghost use Rattle.branch_export.specs.declared.faults.ExportFault.{ExportFault};
ghost use Rattle.export_run.specs.Exporting.{ExportOutcome, ExportEndsAs, IsExportEnd};

use crate::silence::ask_silently;
use any_site::SiteMachine;
use branch_export::{ExportFault, export_store};
use std::alloc::Global;
use std::hash::RandomState;
use std::mem;
use stored_site::StoredSite;
use tardis_base::{Limits, NoMemory, StateId};
use tardis_io::{Sink, Source, Status};

/// Writes the export of a state of the site: each key whose read there is a value, with the value, as `docs/EXPORT.md` says.
///
/// All memory comes before the first byte. The cost grows with the number of all keys of the site, and with the bytes that are
/// written.
pub fn export_at<A: StoredSite, O: Sink>(
    alloc: Global,
    core: &A,
    state: StateId,
    output: &mut O,
) -> Result<(), ExportFault>
    ensures exported { (site : Site) → A.stands core.now site → Exported site.dag site.collected state (O.given output.old) (O.given output.new) result }
    ensures nothing { (result ≡ Err ExportFault.NoState) ⊎ (result ≡ Err ExportFault.NoMemory) → output.new ≡ output.old }
    ensures later { O.faults output.old ≤ O.faults output.new }
    ensures cause { result ≡ Err ExportFault.WriteFault → Rose (O.faults output.old) (O.faults output.new) }
{
    export_store(alloc, core.store(), state, output)
}

/// Asks the site what the frames of an input ask, forgets its replies, and then writes the export of a state.
///
/// Nothing is written unless the input ended behind a whole frame, no frame found memory wanting, and the state is known and
/// not collected by then. Where a frame found memory wanting, no more is read, and the steps made before stand.
pub fn run_export<A: StoredSite, I: Source, O: Sink>(
    alloc: Global,
    core: &mut SiteMachine<A>,
    state: StateId,
    input: &mut I,
    output: &mut O,
) -> Status
    ensures outcome { WhileTold (I.left input.old) (I.left input.new)
        (ExportOutcome result state (A.stands core.old) (A.stands core.new) (O.given output.old) (O.given output.new)) }
    ensures exact { WhileTold (I.left input.old) (I.left input.new) (λ first left. (all : List (List ℕ)) (rest : List ℕ)
        → IsCut first all rest → length first < most_taken
        → (Rose (I.faults input.old) (I.faults input.new) → ⊥) → (Rose (O.faults output.old) (O.faults output.new) → ⊥)
        → ExportEndsAs state rest result) }
    ensures status { IsExportEnd state result }
    ensures read_later { I.faults input.old ≤ I.faults input.new }
    ensures write_later { O.faults output.old ≤ O.faults output.new }
    ensures read { result ≡ Status.ReadFault → Rose (I.faults input.old) (I.faults input.new) }
    ensures write { result ≡ Status.WriteFault → Rose (O.faults output.old) (O.faults output.new) }
    ensures nothing { has_given result ≡ false → output.new ≡ output.old }
{
    match ask_silently(alloc, core, input) {
        Status::Ok => match export_at(alloc, site_of(core), state, output) {
            Ok(()) => Status::Ok,
            Err(ExportFault::NoState) => Status::NoState { state },
            Err(ExportFault::WriteFault) => Status::WriteFault,
            Err(ExportFault::NoMemory) => Status::NoMemory,
        },
        Status::WriteFault => Status::NoMemory,
        status => status,
    }
}

/// The same of the site of this number, with these limits, which opens.
///
/// Keys are found by hashing with this seed.
pub fn export<A: StoredSite, I: Source, O: Sink>(
    alloc: Global,
    keys: RandomState,
    limits: Limits,
    own: u16,
    state: StateId,
    input: &mut I,
    output: &mut O,
) -> Status
    requires limits { IsTrue (are_limits limits) }
    requires first { 1 ≤ own }
    requires last { own ≤ limits.sites }
    ensures outcome { WhileTold (I.left input.old) (I.left input.new)
        (ExportOutcome result state (λ s. s ≡ opening limits own) IsSound (O.given output.old) (O.given output.new)) }
    ensures exact { WhileTold (I.left input.old) (I.left input.new) (λ first left. (all : List (List ℕ)) (rest : List ℕ)
        → IsCut first all rest → length first < most_taken
        → (Rose (I.faults input.old) (I.faults input.new) → ⊥) → (Rose (O.faults output.old) (O.faults output.new) → ⊥)
        → ExportEndsAs state rest result) }
    ensures status { IsExportEnd state result }
    ensures read_later { I.faults input.old ≤ I.faults input.new }
    ensures write_later { O.faults output.old ≤ O.faults output.new }
    ensures read { result ≡ Status.ReadFault → Rose (I.faults input.old) (I.faults input.new) }
    ensures write { result ≡ Status.WriteFault → Rose (O.faults output.old) (O.faults output.new) }
    ensures nothing { has_given result ≡ false → output.new ≡ output.old }
{
    match SiteMachine::<A>::open(alloc, keys, limits, own) {
        Ok(mut site) => {
            let status = run_export(alloc, &mut site, state, input, output);
            mem::forget(site); // the program ends, and gives all memory back at once
            status
        }
        Err(NoMemory) => Status::NoMemory,
    }
}

/// The site that is the machine.
fn site_of<A: StoredSite>(machine: &SiteMachine<A>) -> &A
    ensures { result.now ≡ machine.now }
{
    &machine.site
}
