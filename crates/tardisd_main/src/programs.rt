//! The server by its words.

ghost use Rattle.std.specs.Prelude.{◌≡◌, ◌≤◌, ◌⊎◌, ℕ, List, None, Some, length, map, drop};
ghost use Rattle.std.specs.String.{string_bytes};
ghost use Rattle.std.specs.Vec.Iter.{into_iter_items};
ghost use Rattle.tardis_io.specs.Faults.{Rose};
ghost use Rattle.tardis_io.specs.Told.{WhileTold};
ghost use Rattle.command_words.specs.Helps.{AskVersion};
ghost use Rattle.daemon_words.specs.Helps.{AskDaemonUsage};
ghost use Rattle.command_words.specs.Settings.{settings};
ghost use Rattle.daemon_words.specs.Daemons.{Daemon, daemon, daemon_of};
ghost use Rattle.daemon_words.specs.Capacity.{IsCapacity};
ghost use Rattle.command_words.specs.Places.{IsPlace};
ghost use Rattle.tardisd_main.specs.Runs.{AreNone, Checks, ChecksWithRoom, KeepsFile, Serves, ServesAs, Tells};
ghost use Rattle.tardisd_main.specs.Stores.{KeepsAs};

use crate::asks::plan_of;
use crate::checks::check_file;
use crate::doors::Doors;
use crate::endings::{DaemonEnd, ending_of};
use crate::files::serve_file;
use crate::helps::{USAGE, VERSION, help_text};
use crate::sites::serve_place;
use command_words::{Help, words_behind_name};
use daemon_words::{DaemonPlan, checked_file, daemon_help_of};
use disk_store::{BytewiseDisk, Store};
use std::alloc::Global;
use std::env::Args;
use std::hash::RandomState;
use tardis_base::NoMemory;
use tardis_io::{Sink, WriteFault, write_all};

/// Does what a program's arguments ask for, of which the first is the program's name: `tardisd` over the others.
pub fn carry_out<D: Doors, K: BytewiseDisk, S: Store<Disk = K>, O: Sink>(
    alloc: Global,
    keys: RandomState,
    life: [u8; 16],
    args: Args,
    doors: &mut D,
    store: &mut S,
    output: &mut O,
) -> DaemonEnd
    ensures usage { result ≡ DaemonEnd.Usage → AreNone (map (λ w. string_bytes w) (drop 1 (into_iter_items args))) }
    ensures none { AreNone (map (λ w. string_bytes w) (drop 1 (into_iter_items args)))
        → ((result ≡ DaemonEnd.Usage) ⊎ (result ≡ DaemonEnd.NoMemory)) × (doors.new ≡ doors.old) × (store.new ≡ store.old) × (output.new ≡ output.old) }
    ensures told_usage { AskDaemonUsage (map (λ w. string_bytes w) (drop 1 (into_iter_items args)))
        → (doors.new ≡ doors.old) × (store.new ≡ store.old) × WhileTold (O.given output.old) (O.given output.new) (Tells USAGE.now result) }
    ensures told_version { AskVersion (map (λ w. string_bytes w) (drop 1 (into_iter_items args)))
        → (doors.new ≡ doors.old) × (store.new ≡ store.old) × WhileTold (O.given output.old) (O.given output.new) (Tells VERSION.now result) }
    ensures serve { Serves D.opens D.Ports.seen life doors.old doors.new store.old store.new output.old output.new
        (map (λ w. string_bytes w) (drop 1 (into_iter_items args))) result }
    ensures keep { KeepsFile D.opens D.Ports.seen S.Store K.Disk life doors.old doors.new store.old store.new output.old output.new
        (map (λ w. string_bytes w) (drop 1 (into_iter_items args))) result }
    ensures check { ChecksWithRoom S.Store K.Disk doors.old doors.new store.old store.new output.old output.new
        (map (λ w. string_bytes w) (drop 1 (into_iter_items args))) result }
    ensures write_later { O.faults output.old ≤ O.faults output.new }
    ensures write { result ≡ DaemonEnd.WriteFailed → Rose (O.faults output.old) (O.faults output.new) }
{
    match words_behind_name(alloc, args) {
        Ok(words) => tardisd(alloc, keys, life, words.as_slice(), doors, store, output),
        Err(NoMemory) => DaemonEnd::NoMemory,
    }
}

/// Does what the words ask for: tells of the program; tells what a file has (`check_file`), and then the edge isn't asked; or opens
/// the edge at their doors and to their peers, and serves the site at their place over the connections that come and fetches, until
/// the edge can't be waited for. With a file the site is read from it first, and kept in it; one that is new gets this life. A site
/// that has no life yet begins this one before anything is asked of it. Words without a form are `Usage`.
pub fn tardisd<D: Doors, K: BytewiseDisk, S: Store<Disk = K>, O: Sink>(
    alloc: Global,
    keys: RandomState,
    life: [u8; 16],
    words: &[String],
    doors: &mut D,
    store: &mut S,
    output: &mut O,
) -> DaemonEnd
    ensures usage { result ≡ DaemonEnd.Usage → AreNone (map (λ w. string_bytes w) words.now) }
    ensures none { AreNone (map (λ w. string_bytes w) words.now)
        → (result ≡ DaemonEnd.Usage) × (doors.new ≡ doors.old) × (store.new ≡ store.old) × (output.new ≡ output.old) }
    ensures told_usage { AskDaemonUsage (map (λ w. string_bytes w) words.now)
        → (doors.new ≡ doors.old) × (store.new ≡ store.old) × WhileTold (O.given output.old) (O.given output.new) (Tells USAGE.now result) }
    ensures told_version { AskVersion (map (λ w. string_bytes w) words.now)
        → (doors.new ≡ doors.old) × (store.new ≡ store.old) × WhileTold (O.given output.old) (O.given output.new) (Tells VERSION.now result) }
    ensures serve { Serves D.opens D.Ports.seen life doors.old doors.new store.old store.new output.old output.new (map (λ w. string_bytes w) words.now) result }
    ensures keep { KeepsFile D.opens D.Ports.seen S.Store K.Disk life doors.old doors.new store.old store.new output.old output.new
        (map (λ w. string_bytes w) words.now) result }
    ensures check { Checks S.Store K.Disk doors.old doors.new store.old store.new output.old output.new (map (λ w. string_bytes w) words.now) result }
    ensures write_later { O.faults output.old ≤ O.faults output.new }
    ensures write { result ≡ DaemonEnd.WriteFailed → Rose (O.faults output.old) (O.faults output.new) }
{
    match daemon_help_of(words) {
        Some(help) => tell(help, output),
        None => match checked_file(words) {
            Some(path) => check_file(alloc, keys, path, store),
            None => serve_words(alloc, keys, life, words, doors, store),
        },
    }
}

/// Serves the site for which the words ask.
fn serve_words<D: Doors, K: BytewiseDisk, S: Store<Disk = K>>(
    alloc: Global,
    keys: RandomState,
    life: [u8; 16],
    words: &[String],
    doors: &mut D,
    store: &mut S,
) -> DaemonEnd
    ensures usage { result ≡ DaemonEnd.Usage → daemon (settings (map (λ w. string_bytes w) words.now)) ≡ None }
    ensures none { daemon (settings (map (λ w. string_bytes w) words.now)) ≡ None
        → (result ≡ DaemonEnd.Usage) × (doors.new ≡ doors.old) × (store.new ≡ store.old) }
    ensures serve { (asked : Daemon) → daemon (settings (map (λ w. string_bytes w) words.now)) ≡ Some asked → asked.file ≡ None
        → ServesAs D.opens D.Ports.seen life doors.old doors.new asked result × (store.new ≡ store.old) }
    ensures keep { (asked : Daemon) (path : List ℕ) → daemon (settings (map (λ w. string_bytes w) words.now)) ≡ Some asked → asked.file ≡ Some path
        → KeepsAs D.opens D.Ports.seen S.Store K.Disk life asked path doors.old doors.new store.old store.new result }
    ensures write { result ≡ DaemonEnd.WriteFailed → ⊥ }
{
    match plan_of(alloc, words) {
        Ok(plan) => serve_plan(alloc, keys, life, &plan, doors, store),
        Err(refused) => refused,
    }
}

/// Writes what the server tells of itself.
fn tell<O: Sink>(help: Help, output: &mut O) -> DaemonEnd
    ensures end { (result ≡ DaemonEnd.Told) ⊎ (result ≡ DaemonEnd.WriteFailed) }
    ensures usage { help ≡ Help.Usage → WhileTold (O.given output.old) (O.given output.new) (Tells USAGE.now result) }
    ensures version { help ≡ Help.Version → WhileTold (O.given output.old) (O.given output.new) (Tells VERSION.now result) }
    ensures write_later { O.faults output.old ≤ O.faults output.new }
    ensures write { result ≡ DaemonEnd.WriteFailed → Rose (O.faults output.old) (O.faults output.new) }
{
    match write_all(output, help_text(help).as_bytes()) {
        Ok(()) => DaemonEnd::Told,
        Err(WriteFault) => DaemonEnd::WriteFailed,
    }
}

/// Serves the site at the plan's place, from its file where it has one.
fn serve_plan<D: Doors, K: BytewiseDisk, S: Store<Disk = K>>(
    alloc: Global,
    keys: RandomState,
    life: [u8; 16],
    plan: &DaemonPlan<'_>,
    doors: &mut D,
    store: &mut S,
) -> DaemonEnd
    requires place { IsPlace plan.now.place }
    requires capacity { IsCapacity plan.now.capacity }
    requires few { length plan.now.peers.items ≤ 15 }
    ensures memory { (daemon_of plan.now).file ≡ None → ServesAs D.opens D.Ports.seen life doors.old doors.new (daemon_of plan.now) result × (store.new ≡ store.old) }
    ensures file { (path : List ℕ) → (daemon_of plan.now).file ≡ Some path
        → KeepsAs D.opens D.Ports.seen S.Store K.Disk life (daemon_of plan.now) path doors.old doors.new store.old store.new result }
    ensures neither { (result ≡ DaemonEnd.Usage → ⊥) × (result ≡ DaemonEnd.WriteFailed → ⊥) }
{
    match plan.file {
        None => open_and_serve(alloc, keys, life, plan, doors),
        Some(path) => serve_file(alloc, keys, life, plan, path, doors, store),
    }
}

/// Opens the edge as the plan says, and serves the site at its place, which is in memory.
fn open_and_serve<D: Doors>(
    alloc: Global,
    keys: RandomState,
    life: [u8; 16],
    plan: &DaemonPlan<'_>,
    doors: &mut D,
) -> DaemonEnd
    requires place { IsPlace plan.now.place }
    requires capacity { IsCapacity plan.now.capacity }
    requires few { length plan.now.peers.items ≤ 15 }
    ensures { ServesAs D.opens D.Ports.seen life doors.old doors.new (daemon_of plan.now) result }
{
    match doors.open(plan) {
        Ok(mut ports) => {
            doors.announce(plan, None);
            match serve_place(alloc, keys, life, plan, &mut ports) {
                Ok(end) => ending_of(end),
                Err(NoMemory) => DaemonEnd::NoMemory,
            }
        }
        Err(fault) => DaemonEnd::Gate(fault),
    }
}
