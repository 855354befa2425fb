//! A durable run of a site.

ghost use Rattle.std.specs.Prelude.{◌≡◌, ◌<◌, ◌≤◌, ◌⊎◌, ℕ, List, length, IsTrue};
ghost use Rattle.tardis_base.specs.Valid.{are_limits};
ghost use Rattle.tardis_io.specs.Told.{WhileTold};
ghost use Rattle.tardis_io.specs.Faults.{Rose};
ghost use Rattle.frame_cut.specs.Frames.{IsCut};
ghost use Rattle.site_run.specs.Endings.{EndsAs, most_taken};
ghost use Rattle.plain_site.specs.Site.{opening};
ghost use Rattle.plain_site.specs.Step.{site_machine};
ghost use Rattle.durable_run.specs.Ends.{RanOn, RanPromptly, NotOpened, source_of};
ghost use Rattle.durable_run.specs.Turns.{Ended};

use crate::runs::{run_durable, run_durable_device};
use any_site::{AnySite, SiteMachine};
use disk_store::Disk;
use std::alloc::Global;
use std::hash::RandomState;
use tardis_base::{Limits, NoMemory};
use tardis_io::{Duplex, Sink, Source, Status};

/// Runs the site of this number, with these limits, over the journal on a disk, which comes back with the status. The journal may
/// have at most as many bytes as its limits allow a trail. Keys are found by hashing with this seed.
pub fn run_site_on<A: AnySite, K: Disk, I: Source, O: Sink>(
    alloc: Global,
    keys: RandomState,
    limits: Limits,
    own: u16,
    disk: K,
    input: &mut I,
    output: &mut O,
) -> (Status, K)
    requires limits { IsTrue (are_limits limits) }
    requires first { 1 ≤ own }
    requires last { own ≤ limits.sites }
    ensures outcome { NotOpened site_machine K.Disk I.Source O.Sink result.0 disk result.1 input.old input.new
        output.old output.new
        ⊎ RanOn site_machine K.Disk I.Source O.Sink (opening limits own) limits.max_trail result.0 disk result.1
        input.old input.new output.old output.new }
    ensures exact { WhileTold (I.left input.old) (I.left input.new) (λ first left. (all : List (List ℕ)) (rest : List ℕ)
        → IsCut first all rest → length first < most_taken → (Rose (K.faults disk) (K.faults result.1) → ⊥)
        → (Rose (I.faults input.old) (I.faults input.new) → ⊥) → (Rose (O.faults output.old) (O.faults output.new) → ⊥)
        → EndsAs rest result.0) }
    ensures ended { Ended K.Disk I.Source O.Sink disk result.1 input.old input.new output.old output.new result.0 }
    ensures read_later { I.faults input.old ≤ I.faults input.new }
    ensures write_later { O.faults output.old ≤ O.faults output.new }
    ensures nothing { result.0 ≡ Status.NoMemory → (input.new ≡ input.old) × (output.new ≡ output.old) }
{
    match SiteMachine::<A>::open(alloc, keys, limits, own) {
        Ok(site) => run_durable(alloc, site, disk, limits.max_trail, input, output),
        Err(NoMemory) => (Status::NoMemory, disk),
    }
}

/// The same over one device. Before each take all frames in the bytes taken so far were answered, and all answers given.
pub fn run_site_on_device<A: AnySite, K: Disk, D: Duplex>(
    alloc: Global,
    keys: RandomState,
    limits: Limits,
    own: u16,
    disk: K,
    device: &mut D,
) -> (Status, K)
    requires limits { IsTrue (are_limits limits) }
    requires first { 1 ≤ own }
    requires last { own ≤ limits.sites }
    ensures outcome { NotOpened site_machine K.Disk (source_of D.Duplex.own) D.Sink result.0 disk result.1 device.old device.new device.old device.new
        ⊎ RanPromptly site_machine K.Disk D.Duplex.own D.Sink (opening limits own) limits.max_trail result.0 disk result.1 device.old device.new }
    ensures exact { WhileTold (D.left device.old) (D.left device.new) (λ first left. (all : List (List ℕ)) (rest : List ℕ)
        → IsCut first all rest → length first < most_taken → (Rose (K.faults disk) (K.faults result.1) → ⊥)
        → (Rose (D.take_faults device.old) (D.take_faults device.new) → ⊥) → (Rose (D.faults device.old) (D.faults device.new) → ⊥)
        → EndsAs rest result.0) }
    ensures ended { Ended K.Disk (source_of D.Duplex.own) D.Sink disk result.1 device.old device.new device.old device.new result.0 }
    ensures read_later { D.take_faults device.old ≤ D.take_faults device.new }
    ensures write_later { D.faults device.old ≤ D.faults device.new }
    ensures nothing { result.0 ≡ Status.NoMemory → device.new ≡ device.old }
    ensures parts { D.parts device.new ≡ D.parts device.old }
{
    match SiteMachine::<A>::open(alloc, keys, limits, own) {
        Ok(site) => run_durable_device(alloc, site, disk, limits.max_trail, device),
        Err(NoMemory) => (Status::NoMemory, disk),
    }
}
