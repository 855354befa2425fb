//! The program over its arguments, its input and its output.

ghost use Rattle.std.specs.Prelude.{◌≡◌, ◌≤◌, ◌⊎◌, List, ℕ, map, drop};
ghost use Rattle.std.specs.String.{string_bytes};
ghost use Rattle.std.specs.Vec.Iter.{into_iter_items};
ghost use Rattle.tardis_io.specs.Faults.{Rose};
ghost use Rattle.command_words.specs.declared.commands.Place.{Place};
ghost use Rattle.command_words.specs.Forms.{Serving};
ghost use Rattle.site_commands.specs.Ends.{CausedBy};
ghost use Rattle.tardis_io.specs.Told.{WhileTold};
ghost use Rattle.command_words.specs.Helps.{AskUsage, AskVersion};
ghost use Rattle.tardis_main.specs.Helps.{AreNone, Tells};
ghost use Rattle.tardis_main.specs.Words.{AreDurable, AreServe};
ghost use Rattle.tardis_main.specs.Program.{Audits, Autos, Durables, Exports, Imports, Loads, Runs, Serves, Shells, Worlds};

use crate::helps::{USAGE, VERSION, help_text};
use crate::tardis;
use command_words::{Help, commands_are_at_a_site, help_of, words_behind_name};
use disk_store::Store;
use std::alloc::Global;
use std::env::Args;
use std::hash::RandomState;
use std::sync::Wait;
use std::thread::Threads;
use stored_site::StoredSite;
use tardis_base::NoMemory;
use tardis_io::{Dial, Gate, Sink, Source, Status, WriteFault, write_all};

/// Carries out the command that a program's arguments name, by sites of this kind. The first argument is the program's name: it tells of itself
/// for `--help` and `--version`, and is `tardis` for other words.
pub fn carry_out<
    A: StoredSite + Send,
    I: Source,
    O: Sink,
    G: Gate,
    D: Dial + Send,
    S: Store,
    R: Threads + Wait + Sync,
>(
    alloc: Global,
    rt: &R,
    keys: RandomState,
    args: Args,
    input: &mut I,
    output: &mut O,
    gate: &mut G,
    dial: &mut D,
    store: &mut S,
) -> Status
    ensures usage { result ≡ Status.Usage → AreNone (map (λ w. string_bytes w) (drop 1 (into_iter_items args))) }
    ensures none { AreNone (map (λ w. string_bytes w) (drop 1 (into_iter_items args)))
        → ((result ≡ Status.Usage) ⊎ (result ≡ Status.NoMemory)) × (input.new ≡ input.old) × (output.new ≡ output.old) × (gate.new ≡ gate.old)
        × (dial.new ≡ dial.old) × (store.new ≡ store.old) }
    ensures help { AskUsage (map (λ w. string_bytes w) (drop 1 (into_iter_items args))) ⊎ AskVersion (map (λ w. string_bytes w) (drop 1 (into_iter_items args)))
        → ((result ≡ Status.Ok) ⊎ ((result ≡ Status.WriteFault) ⊎ ((result ≡ Status.NoMemory) × (output.new ≡ output.old)))) × (input.new ≡ input.old) }
    ensures told_usage { AskUsage (map (λ w. string_bytes w) (drop 1 (into_iter_items args)))
        → WhileTold (O.given output.old) (O.given output.new) (Tells USAGE.now result) }
    ensures told_version { AskVersion (map (λ w. string_bytes w) (drop 1 (into_iter_items args)))
        → WhileTold (O.given output.old) (O.given output.new) (Tells VERSION.now result) }
    ensures run { Runs I.Source O.Sink input.old input.new output.old output.new
        (map (λ w. string_bytes w) (drop 1 (into_iter_items args))) result }
    ensures shell { Shells I.Source O.Sink input.old input.new output.old output.new
        (map (λ w. string_bytes w) (drop 1 (into_iter_items args))) result }
    ensures audit { Audits I.Source O.Sink input.old input.new output.old output.new
        (map (λ w. string_bytes w) (drop 1 (into_iter_items args))) result }
    ensures world { Worlds I.Source O.Sink input.old input.new output.old output.new
        (map (λ w. string_bytes w) (drop 1 (into_iter_items args))) result }
    ensures auto { Autos I.Source O.Sink input.old input.new output.old output.new
        (map (λ w. string_bytes w) (drop 1 (into_iter_items args))) result }
    ensures export { Exports I.Source O.Sink input.old input.new output.old output.new
        (map (λ w. string_bytes w) (drop 1 (into_iter_items args))) result }
    ensures import { Imports I.Source O.Sink input.old input.new output.old output.new
        (map (λ w. string_bytes w) (drop 1 (into_iter_items args))) result }
    ensures load { Loads I.Source O.Sink input.old input.new output.old output.new
        (map (λ w. string_bytes w) (drop 1 (into_iter_items args))) result }
    ensures serve { Serves A.opened G.Gate G.Link.Duplex.own G.Link.Sink D.Dial D.Link.Duplex.own D.Link.Sink O.Sink gate.old gate.new dial.old dial.new output.old output.new
        (map (λ w. string_bytes w) (drop 1 (into_iter_items args))) result }
    ensures durable { Durables I.Source O.Sink S.Store S.Disk.Disk store.old store.new input.old input.new output.old output.new (map (λ w. string_bytes w) (drop 1 (into_iter_items args))) result }
    ensures unstored { ((place : Place) (path : List ℕ) → AreDurable (map (λ w. string_bytes w) (drop 1 (into_iter_items args))) place path → ⊥)
        → store.new ≡ store.old }
    ensures unread { (plan : Serving) → AreServe (map (λ w. string_bytes w) (drop 1 (into_iter_items args))) plan → input.new ≡ input.old }
    ensures unbound { ((plan : Serving) → AreServe (map (λ w. string_bytes w) (drop 1 (into_iter_items args))) plan → ⊥)
        → (gate.new ≡ gate.old) × (dial.new ≡ dial.old) }
    ensures read { CausedBy Status.ReadFault (I.faults input.old) (I.faults input.new) result }
    ensures write { CausedBy Status.WriteFault (O.faults output.old) (O.faults output.new) result }
    ensures gate { CausedBy Status.GateFault (G.faults gate.old) (G.faults gate.new) result }
    ensures dial { CausedBy Status.DialFault (D.faults dial.old) (D.faults dial.new) result }
    ensures disk { CausedBy Status.DiskFault (S.faults store.old) (S.faults store.new) result }
{
    match words_behind_name(alloc, args) {
        Ok(words) => command::<A, I, O, G, D, S, R>(
            alloc,
            rt,
            keys,
            words.as_slice(),
            input,
            output,
            gate,
            dial,
            store,
        ),
        Err(NoMemory) => {
            commands_are_at_a_site();
            Status::NoMemory
        }
    }
}

/// Carries out the command that the words name.
fn command<
    A: StoredSite + Send,
    I: Source,
    O: Sink,
    G: Gate,
    D: Dial + Send,
    S: Store,
    R: Threads + Wait + Sync,
>(
    alloc: Global,
    rt: &R,
    keys: RandomState,
    words: &[String],
    input: &mut I,
    output: &mut O,
    gate: &mut G,
    dial: &mut D,
    store: &mut S,
) -> Status
    ensures usage { result ≡ Status.Usage → AreNone (map (λ w. string_bytes w) words.now) }
    ensures none { AreNone (map (λ w. string_bytes w) words.now)
        → ((result ≡ Status.Usage) ⊎ (result ≡ Status.NoMemory)) × (input.new ≡ input.old) × (output.new ≡ output.old) × (gate.new ≡ gate.old)
        × (dial.new ≡ dial.old) × (store.new ≡ store.old) }
    ensures help { AskUsage (map (λ w. string_bytes w) words.now) ⊎ AskVersion (map (λ w. string_bytes w) words.now)
        → ((result ≡ Status.Ok) ⊎ ((result ≡ Status.WriteFault) ⊎ ((result ≡ Status.NoMemory) × (output.new ≡ output.old)))) × (input.new ≡ input.old) }
    ensures told_usage { AskUsage (map (λ w. string_bytes w) words.now)
        → WhileTold (O.given output.old) (O.given output.new) (Tells USAGE.now result) }
    ensures told_version { AskVersion (map (λ w. string_bytes w) words.now)
        → WhileTold (O.given output.old) (O.given output.new) (Tells VERSION.now result) }
    ensures run { Runs I.Source O.Sink input.old input.new output.old output.new
        (map (λ w. string_bytes w) words.now) result }
    ensures shell { Shells I.Source O.Sink input.old input.new output.old output.new
        (map (λ w. string_bytes w) words.now) result }
    ensures audit { Audits I.Source O.Sink input.old input.new output.old output.new
        (map (λ w. string_bytes w) words.now) result }
    ensures world { Worlds I.Source O.Sink input.old input.new output.old output.new
        (map (λ w. string_bytes w) words.now) result }
    ensures auto { Autos I.Source O.Sink input.old input.new output.old output.new (map (λ w. string_bytes w) words.now) result }
    ensures export { Exports I.Source O.Sink input.old input.new output.old output.new (map (λ w. string_bytes w) words.now) result }
    ensures import { Imports I.Source O.Sink input.old input.new output.old output.new (map (λ w. string_bytes w) words.now) result }
    ensures load { Loads I.Source O.Sink input.old input.new output.old output.new (map (λ w. string_bytes w) words.now) result }
    ensures serve { Serves A.opened G.Gate G.Link.Duplex.own G.Link.Sink D.Dial D.Link.Duplex.own D.Link.Sink O.Sink gate.old gate.new dial.old dial.new output.old output.new
        (map (λ w. string_bytes w) words.now) result }
    ensures durable { Durables I.Source O.Sink S.Store S.Disk.Disk store.old store.new input.old input.new output.old output.new (map (λ w. string_bytes w) words.now) result }
    ensures unstored { ((place : Place) (path : List ℕ) → AreDurable (map (λ w. string_bytes w) words.now) place path → ⊥) → store.new ≡ store.old }
    ensures unread { (plan : Serving) → AreServe (map (λ w. string_bytes w) words.now) plan → input.new ≡ input.old }
    ensures unbound { ((plan : Serving) → AreServe (map (λ w. string_bytes w) words.now) plan → ⊥) → (gate.new ≡ gate.old) × (dial.new ≡ dial.old) }
    ensures read { CausedBy Status.ReadFault (I.faults input.old) (I.faults input.new) result }
    ensures write { CausedBy Status.WriteFault (O.faults output.old) (O.faults output.new) result }
    ensures gate { CausedBy Status.GateFault (G.faults gate.old) (G.faults gate.new) result }
    ensures dial { CausedBy Status.DialFault (D.faults dial.old) (D.faults dial.new) result }
    ensures disk { CausedBy Status.DiskFault (S.faults store.old) (S.faults store.new) result }
{
    match help_of(words) {
        Some(help) => tell(help, output),
        None => tardis::<A, I, O, G, D, S, R>(
            alloc, rt, keys, words, input, output, gate, dial, store,
        ),
    }
}

/// Writes what the program tells of itself.
fn tell<O: Sink>(help: Help, output: &mut O) -> Status
    ensures status { (result ≡ Status.Ok) ⊎ (result ≡ Status.WriteFault) }
    ensures usage { help ≡ Help.Usage → WhileTold (O.given output.old) (O.given output.new) (Tells USAGE.now result) }
    ensures version { help ≡ Help.Version → WhileTold (O.given output.old) (O.given output.new) (Tells VERSION.now result) }
    ensures write_later { O.faults output.old ≤ O.faults output.new }
    ensures write { result ≡ Status.WriteFault → Rose (O.faults output.old) (O.faults output.new) }
{
    match write_all(output, help_text(help).as_bytes()) {
        Ok(()) => Status::Ok,
        Err(WriteFault) => Status::WriteFault,
    }
}
