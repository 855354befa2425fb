//! The program: from the words of a command to a status.
//!
//! The commands and the statuses are stated in `docs/COMMANDS.md`.
#![tactic(auto)]

ghost use Rattle.std.specs.Prelude.{◌≡◌, List, ℕ, map};
ghost use Rattle.std.specs.String.{string_bytes};
ghost use Rattle.command_words.specs.declared.commands.Place.{Place};
ghost use Rattle.command_words.specs.Forms.{Serving};
ghost use Rattle.site_commands.specs.Ends.{CausedBy};
ghost use Rattle.tardis_main.specs.Words.{AreDurable, AreServe, AreUnknown};
ghost use Rattle.tardis_main.specs.Program.{Audits, Autos, Durables, Exports, Imports, Loads, Runs, Serves, Shells, Worlds};

mod helps;
mod laws;
mod obeying;
mod plans;
mod programs;

use disk_store::Store;
pub use helps::{USAGE, VERSION, help_text};
pub use laws::replies_have_lines;
use obeying::obey;
pub use programs::carry_out;
use std::alloc::Global;
use std::hash::RandomState;
use std::sync::Wait;
use std::thread::Threads;
use stored_site::StoredSite;
use tardis_io::{Dial, Gate, Sink, Source, Status};

/// Carries out the command that the words name, by sites of this kind, at the place among the sites that they name. Words without a
/// form are `Status::Usage`; then nothing is read, written, listened to, called or opened.
///
/// Keys are found by hashing with this seed. Only `serve` starts threads and waits, and only it uses the gate and the dial. Only
/// `durable` uses the store.
pub fn tardis<
    A: StoredSite + Send,
    I: Source,
    O: Sink,
    G: Gate,
    D: Dial + Send,
    S: Store,
    R: Threads + Wait + Sync,
>(
    alloc: Global,
    rt: &R,
    keys: RandomState,
    words: &[String],
    input: &mut I,
    output: &mut O,
    gate: &mut G,
    dial: &mut D,
    store: &mut S,
) -> Status
    ensures usage { result ≡ Status.Usage → AreUnknown (map (λ w. string_bytes w) words.now) }
    ensures unknown { AreUnknown (map (λ w. string_bytes w) words.now) → (result ≡ Status.Usage)
        × (input.new ≡ input.old) × (output.new ≡ output.old) × (gate.new ≡ gate.old) × (dial.new ≡ dial.old) × (store.new ≡ store.old) }
    ensures run { Runs I.Source O.Sink input.old input.new output.old output.new (map (λ w. string_bytes w) words.now) result }
    ensures shell { Shells I.Source O.Sink input.old input.new output.old output.new (map (λ w. string_bytes w) words.now) result }
    ensures audit { Audits I.Source O.Sink input.old input.new output.old output.new (map (λ w. string_bytes w) words.now) result }
    ensures world { Worlds I.Source O.Sink input.old input.new output.old output.new (map (λ w. string_bytes w) words.now) result }
    ensures auto { Autos I.Source O.Sink input.old input.new output.old output.new (map (λ w. string_bytes w) words.now) result }
    ensures export { Exports I.Source O.Sink input.old input.new output.old output.new (map (λ w. string_bytes w) words.now) result }
    ensures import { Imports I.Source O.Sink input.old input.new output.old output.new (map (λ w. string_bytes w) words.now) result }
    ensures load { Loads I.Source O.Sink input.old input.new output.old output.new (map (λ w. string_bytes w) words.now) result }
    ensures serve { Serves A.opened G.Gate G.Link.Duplex.own G.Link.Sink D.Dial D.Link.Duplex.own D.Link.Sink O.Sink gate.old gate.new dial.old dial.new output.old output.new
        (map (λ w. string_bytes w) words.now) result }
    ensures durable { Durables I.Source O.Sink S.Store S.Disk.Disk store.old store.new input.old input.new output.old output.new (map (λ w. string_bytes w) words.now) result }
    ensures unread { (plan : Serving) → AreServe (map (λ w. string_bytes w) words.now) plan → input.new ≡ input.old }
    ensures unbound { ((plan : Serving) → AreServe (map (λ w. string_bytes w) words.now) plan → ⊥) → (gate.new ≡ gate.old) × (dial.new ≡ dial.old) }
    ensures unstored { ((place : Place) (path : List ℕ) → AreDurable (map (λ w. string_bytes w) words.now) place path → ⊥) → store.new ≡ store.old }
    ensures read { CausedBy Status.ReadFault (I.faults input.old) (I.faults input.new) result }
    ensures write { CausedBy Status.WriteFault (O.faults output.old) (O.faults output.new) result }
    ensures gate { CausedBy Status.GateFault (G.faults gate.old) (G.faults gate.new) result }
    ensures dial { CausedBy Status.DialFault (D.faults dial.old) (D.faults dial.new) result }
    ensures disk { CausedBy Status.DiskFault (S.faults store.old) (S.faults store.new) result }
{
    obey::<A, I, O, G, D, S, R>(alloc, rt, keys, words, input, output, gate, dial, store)
}
