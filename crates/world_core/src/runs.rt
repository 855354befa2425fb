//! Runs of a world: frames in, frames out.

ghost use Rattle.std.specs.Prelude.{◌≡◌, ◌<◌, ◌≤◌, ℕ, List, length};
ghost use Rattle.tardis_io.specs.Told.{WhileTold};
ghost use Rattle.tardis_io.specs.Faults.{Rose};
ghost use Rattle.frame_cut.specs.Frames.{IsCut};
ghost use Rattle.site_run.specs.Endings.{EndsAs, IsRunEnd, most_taken};
ghost use Rattle.plain_world.specs.Worlds.{opening_world, world_limits};
ghost use Rattle.world_core.specs.Held.{WorldStands};
ghost use Rattle.world_core.specs.Runs.{WorldOutcome, WorldFrom};

use crate::replies::WorldReplies;
use crate::worlds::World;
use any_site::AnySite;
use site_run::answer_frames;
use std::alloc::Global;
use std::hash::RandomState;
use tardis_base::NoMemory;
use tardis_io::{Duplex, Pair, Sink, Source, Status};

/// Opens so many sites, answers the frames of an input by the frames of the world's replies, and drops the sites at the end. All
/// buffers and sites are taken first; where they aren't had, the answer is `Status::NoMemory`, and nothing was read.
///
/// What bodies ask and how they are answered is stated in `docs/COMMANDS.md`.
pub fn run_world<A: AnySite, I: Source, O: Sink>(
    alloc: Global,
    keys: RandomState,
    sites: u16,
    input: &mut I,
    output: &mut O,
) -> Status
    requires first { 1 ≤ sites }
    requires last { sites ≤ 16 }
    ensures outcome { WhileTold (I.left input.old) (I.left input.new)
        (WorldFrom (opening_world (world_limits sites)) result (O.given output.old) (O.given output.new)) }
    ensures exact { WhileTold (I.left input.old) (I.left input.new) (λ first left. (all : List (List ℕ)) (rest : List ℕ)
        → IsCut first all rest → length first < most_taken
        → (Rose (I.faults input.old) (I.faults input.new) → ⊥) → (Rose (O.faults output.old) (O.faults output.new) → ⊥)
        → EndsAs rest result) }
    ensures status { IsRunEnd result }
    ensures read_later { I.faults input.old ≤ I.faults input.new }
    ensures write_later { O.faults output.old ≤ O.faults output.new }
    ensures read { result ≡ Status.ReadFault → Rose (I.faults input.old) (I.faults input.new) }
    ensures write { result ≡ Status.WriteFault → Rose (O.faults output.old) (O.faults output.new) }
    ensures nothing { result ≡ Status.NoMemory → (input.new ≡ input.old) × (output.new ≡ output.old) }
{
    match World::<A>::new(alloc, keys, sites) {
        Ok(mut world) => answer_world(alloc, &mut world, input, output),
        Err(NoMemory) => Status::NoMemory,
    }
}

/// Answers the frames of an input from this world.
fn answer_world<A: AnySite, I: Source, O: Sink>(
    alloc: Global,
    world: &mut World<A>,
    input: &mut I,
    output: &mut O,
) -> Status
    ensures outcome { WhileTold (I.left input.old) (I.left input.new)
        (WorldOutcome result (WorldStands A.stands world.old) (WorldStands A.stands world.new) (O.given output.old) (O.given output.new)) }
    ensures exact { WhileTold (I.left input.old) (I.left input.new) (λ first left. (all : List (List ℕ)) (rest : List ℕ)
        → IsCut first all rest → length first < most_taken
        → (Rose (I.faults input.old) (I.faults input.new) → ⊥) → (Rose (O.faults output.old) (O.faults output.new) → ⊥)
        → EndsAs rest result) }
    ensures status { IsRunEnd result }
    ensures read_later { I.faults input.old ≤ I.faults input.new }
    ensures write_later { O.faults output.old ≤ O.faults output.new }
    ensures read { result ≡ Status.ReadFault → Rose (I.faults input.old) (I.faults input.new) }
    ensures write { result ≡ Status.WriteFault → Rose (O.faults output.old) (O.faults output.new) }
    ensures nothing { result ≡ Status.NoMemory → (input.new ≡ input.old) × (output.new ≡ output.old) }
{
    answer_device(alloc, world, &mut Pair { input, output })
}

/// The same over one device.
fn answer_device<A: AnySite, D: Duplex>(
    alloc: Global,
    world: &mut World<A>,
    device: &mut D,
) -> Status
    ensures outcome { WhileTold (D.left device.old) (D.left device.new)
        (WorldOutcome result (WorldStands A.stands world.old) (WorldStands A.stands world.new) (D.given device.old) (D.given device.new)) }
    ensures exact { WhileTold (D.left device.old) (D.left device.new) (λ first left. (all : List (List ℕ)) (rest : List ℕ)
        → IsCut first all rest → length first < most_taken
        → (Rose (D.take_faults device.old) (D.take_faults device.new) → ⊥) → (Rose (D.faults device.old) (D.faults device.new) → ⊥)
        → EndsAs rest result) }
    ensures status { IsRunEnd result }
    ensures read_later { D.take_faults device.old ≤ D.take_faults device.new }
    ensures write_later { D.faults device.old ≤ D.faults device.new }
    ensures read { result ≡ Status.ReadFault → Rose (D.take_faults device.old) (D.take_faults device.new) }
    ensures write { result ≡ Status.WriteFault → Rose (D.faults device.old) (D.faults device.new) }
    ensures nothing { result ≡ Status.NoMemory → device.new ≡ device.old }
    ensures parts { D.parts device.new ≡ D.parts device.old }
{
    match WorldReplies::new(alloc) {
        Ok(mut replies) => answer_frames(alloc, &mut replies, world, device),
        Err(NoMemory) => Status::NoMemory,
    }
}
