//! Carrying out the words of a command.

ghost use Rattle.std.specs.Prelude.{◌≡◌, Some, map};
ghost use Rattle.std.specs.String.{string_bytes};
ghost use Rattle.command_words.specs.Forms.{Form, form};
ghost use Rattle.tardis_main.specs.Words.{AreUnknown};
ghost use Rattle.tardis_main.specs.Carried.{AreCaused, CarriedOut};

use crate::plans::serve_plan;
use auto_run::auto;
use branch_export::run_import;
use command_words::{Command, WordsFault, commands_are_at_a_site, read_words};
use disk_store::Store;
use durable_run::durable;
use export_run::export;
use load_run::run_load;
use site_commands::{audit_frames, run, shell};
use std::alloc::Global;
use std::hash::RandomState;
use std::sync::Wait;
use std::thread::Threads;
use stored_site::StoredSite;
use tardis_io::{Dial, Gate, Sink, Source, Status};
use world_core::run_world;

/// Carries out the command that the words name.
pub(crate) fn obey<
    A: StoredSite + Send,
    I: Source,
    O: Sink,
    G: Gate,
    D: Dial + Send,
    S: Store,
    R: Threads + Wait + Sync,
>(
    alloc: Global,
    rt: &R,
    keys: RandomState,
    words: &[String],
    input: &mut I,
    output: &mut O,
    gate: &mut G,
    dial: &mut D,
    store: &mut S,
) -> Status
    ensures usage { result ≡ Status.Usage → AreUnknown (map (λ w. string_bytes w) words.now) }
    ensures unknown { AreUnknown (map (λ w. string_bytes w) words.now) → (result ≡ Status.Usage)
        × (input.new ≡ input.old) × (output.new ≡ output.old) × (gate.new ≡ gate.old) × (dial.new ≡ dial.old) × (store.new ≡ store.old) }
    ensures carried { (said : Form) → form (map (λ w. string_bytes w) words.now) ≡ Some said
        → CarriedOut A.opened I.Source O.Sink G.Gate G.Link.Duplex.own G.Link.Sink D.Dial D.Link.Duplex.own D.Link.Sink S.Store S.Disk.Disk
        input.old input.new output.old output.new gate.old gate.new dial.old dial.new store.old store.new (map (λ w. string_bytes w) words.now) result said }
    ensures faults { AreCaused (I.faults input.old) (I.faults input.new) (O.faults output.old) (O.faults output.new) (G.faults gate.old) (G.faults gate.new)
        (D.faults dial.old) (D.faults dial.new) (S.faults store.old) (S.faults store.new) result }
{
    match read_words(alloc, words) {
        Ok(Command::Run(place)) => run::<A, I, O>(
            alloc,
            keys,
            place.limits(),
            place.site,
            input,
            output,
        ),
        Ok(Command::Shell(place)) => {
            shell::<A, I, O>(alloc, keys, place.limits(), place.site, input, output)
        }
        Ok(Command::Audit(place)) => {
            audit_frames::<A, I, O>(alloc, keys, place.limits(), place.site, input, output)
        }
        Ok(Command::World { sites }) => run_world::<A, I, O>(alloc, keys, sites, input, output),
        Ok(Command::Serve(plan)) => {
            commands_are_at_a_site();
            serve_plan::<A, O, G, D, R>(alloc, rt, keys, &plan, gate, dial, output)
        }
        Ok(Command::Load { start, steps }) => run_load::<A, O>(alloc, keys, start, steps, output),
        Ok(Command::Auto { place, rules }) => {
            auto::<A, I, O>(
                alloc,
                keys,
                place.limits(),
                place.site,
                rules,
                input,
                output,
            )
        }
        Ok(Command::Export { place, state }) => export::<A, I, O>(
            alloc,
            keys,
            place.limits(),
            place.site,
            state,
            input,
            output,
        ),
        Ok(Command::Import) => run_import(alloc, input, output),
        Ok(Command::Durable { place, path }) => durable::<A, S, I, O>(
            alloc,
            keys,
            place.limits(),
            place.site,
            path.as_str(),
            store,
            input,
            output,
        ),
        Err(WordsFault::Usage) => Status::Usage,
        Err(WordsFault::NoMemory) => {
            commands_are_at_a_site();
            Status::NoMemory
        }
    }
}
