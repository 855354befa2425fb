//! The run of a load: from its numbers to its line.

ghost use Rattle.std.specs.Prelude.{◌≡◌, ◌≤◌, ℕ, List, IfOk};
ghost use Rattle.tardis_io.specs.Told.{WhileTold};
ghost use Rattle.tardis_io.specs.Faults.{Rose};
ghost use Rattle.load_run.specs.Held.{Plays};
ghost use Rattle.load_run.specs.Lines.{load_line};
ghost use Rattle.load_run.specs.Scripts.{opening_play};
ghost use Rattle.load_run.specs.Ends.{WritesLine, IsLoadEnd};

use crate::lines::line_of;
use crate::players::Player;
use std::alloc::Global;
use std::hash::RandomState;
use stored_site::StoredSite;
use tardis_base::NoMemory;
use tardis_io::{Sink, Status, WriteFault, write_all};

/// Plays the script of a load with so many steps, from this start, and writes the one line that tells how it went. Where
/// memory is wanting, nothing is written.
///
/// The script is stated in `docs/COMMANDS.md`, 'A load'. The cost grows with the number of steps and with the states that the
/// site keeps.
pub fn run_load<A: StoredSite, O: Sink>(
    alloc: Global,
    keys: RandomState,
    start: u32,
    steps: u32,
    output: &mut O,
) -> Status
    ensures line { WhileTold (O.given output.old) (O.given output.new) (WritesLine result (load_line start steps)) }
    ensures status { IsLoadEnd result }
    ensures write_later { O.faults output.old ≤ O.faults output.new }
    ensures write { result ≡ Status.WriteFault → Rose (O.faults output.old) (O.faults output.new) }
    ensures nothing { result ≡ Status.NoMemory → output.new ≡ output.old }
{
    match load::<A>(alloc, keys, start, steps) {
        Ok(line) => match write_all(output, line.as_slice()) {
            Ok(()) => Status::Ok,
            Err(WriteFault) => Status::WriteFault,
        },
        Err(NoMemory) => Status::NoMemory,
    }
}

/// The line of the script's play.
fn load<A: StoredSite>(
    alloc: Global,
    keys: RandomState,
    start: u32,
    steps: u32,
) -> Result<Vec<u8>, NoMemory>
    ensures { IfOk result (λ line. line.items ≡ load_line start steps) }
{
    let mut player = Player::<A>::new(alloc, keys, start)?;
    played_line(alloc, &mut player, start, steps)
}

/// Plays so many steps of the script from its start, and tells the line of it.
fn played_line<A: StoredSite>(
    alloc: Global,
    player: &mut Player<A>,
    start: u32,
    steps: u32,
) -> Result<Vec<u8>, NoMemory>
    requires opens { Plays A.stands player.old (opening_play start) }
    requires none { player.old.counts.events ≡ 0 }
    ensures { IfOk result (λ line. line.items ≡ load_line start steps) }
{
    player.play(steps)?;
    let (known, kept) = player.states();
    line_of(alloc, start, steps, &player.counts(), known, kept)
}
