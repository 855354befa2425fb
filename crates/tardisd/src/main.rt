//! The server: makes the real edge and store, hands them with its words to `tardisd_main`, and tells how it ended.
//!
//! The words and the statuses are stated in `docs/COMMANDS.md`.
#![tactic(auto)]

ghost use Rattle.std.specs.Prelude.{◌≡◌};
ghost use Rattle.std.specs.Process.{exit_status};
ghost use Rattle.tardisd_main.specs.Ends.{end_number};

mod doors;
mod files;
mod options;
mod peers;
mod words;

use disk_forms::FileStore;
use doors::SocketDoors;
use files::tell_unopened;
use options::tell_unknown;
use std::alloc::Global;
use std::env::{self, Args};
use std::hash::RandomState;
use std::process::ExitCode;
use std::random::RandomSource;
use std::time::Duration;
use std::{io, thread};
use tardis_io::{StdOut, WriteFault, write_all};
use tardisd_main::{DaemonEnd, FileFault, carry_out};

fn main(rt: HostRuntime) -> ExitCode {
    let mut output = StdOut::new(rt.stdout());
    let (ended, is_told) = run(&rt, rt.alloc(), &mut output);
    end(&rt, ended, is_told)
}

/// So many times it is tried once more to open a file that another server has: one that was killed may still hold it.
const TRIES: u32 = 10;

/// So many milliseconds pass before that is tried again.
const BETWEEN_TRIES: u64 = 100;

/// Does what the arguments ask for: how it ended, and whether that was told.
fn run(rt: &HostRuntime, alloc: Global, output: &mut StdOut) -> (DaemonEnd, bool) {
    for _ in 0..TRIES {
        let ended = run_once(rt, alloc, asked(rt), output);
        if !is_held(ended.0) {
            return ended;
        }
        thread::sleep(rt, Duration::from_millis(BETWEEN_TRIES));
    }
    run_once(rt, alloc, asked(rt), output)
}

/// Whether another server has the file.
fn is_held(ended: DaemonEnd) -> bool {
    matches!(ended, DaemonEnd::File(FileFault::InUse))
}

/// What the system gives a program when it starts.
#[derive(Drop)]
struct Given {
    args: Args,
    keys: RandomState,
    life: [u8; 16],
}

/// The arguments of the program, a seed for its hashing, and the life of a new file.
fn asked(rt: &HostRuntime) -> Result<Given, DaemonEnd> {
    let args = match env::args(rt) {
        Ok(args) => args,
        Err(error) if error.kind() == io::ErrorKind::OutOfMemory => return Err(DaemonEnd::NoMemory),
        // words that are no text have no form
        Err(_) => return Err(DaemonEnd::Usage),
    };
    match drawn(rt) {
        Ok(drawn) => {
            let (keys, life) = (drawn.0, drawn.1);
            Ok(Given { args, keys, life })
        }
        // whatever the reason that the system gives no random bytes, it is told as want of memory
        Err(_) => Err(DaemonEnd::NoMemory),
    }
}

/// What is drawn at random: a seed, and 16 bytes.
fn drawn(rt: &HostRuntime) -> io::Result<(RandomState, [u8; 16])> {
    let keys = RandomState::new(rt)?;
    let mut life = [0; 16];
    rt.fill_bytes(&mut life)?;
    Ok((keys, life))
}

/// Does what the arguments ask for once, over sockets and files: how it ended, and whether that was told.
fn run_once(
    rt: &HostRuntime,
    alloc: Global,
    given: Result<Given, DaemonEnd>,
    output: &mut StdOut,
) -> (DaemonEnd, bool) {
    match given {
        Ok(given) => {
            let life = given.life;
            let Given { args, keys, .. } = given;
            let mut doors = SocketDoors::new(rt);
            let mut store = FileStore::new(alloc, rt);
            let ended = carry_out(alloc, keys, life, args, &mut doors, &mut store, output);
            (tell_check(alloc, ended, output), doors.is_told())
        }
        Err(ended) => (ended, false),
    }
}

/// Writes on standard output what a file has that was checked, and answers how the program ends then. Any other end stays.
fn tell_check(alloc: Global, ended: DaemonEnd, output: &mut StdOut) -> DaemonEnd {
    let DaemonEnd::Checked(check) = ended else {
        return ended;
    };
    let Ok(text) = format!(in alloc; "{check}") else {
        return DaemonEnd::NoMemory;
    };
    match write_all(output, text.as_bytes()) {
        Ok(()) => DaemonEnd::Told,
        Err(WriteFault) => DaemonEnd::WriteFailed,
    }
}

/// Writes the line of an end, if it has one that wasn't told, on standard error, and gives its number.
fn end(rt: &HostRuntime, ended: DaemonEnd, is_told: bool) -> ExitCode
    ensures { exit_status result ≡ end_number ended }
{
    if ended == DaemonEnd::Usage {
        tell_unknown(rt);
    }
    if !is_told && !is_told_by_system(rt, ended) {
        let _ = rt.eprintln(ended);
    }
    ExitCode::from(ended.number())
}

/// Whether nothing is left to tell of an end. Of a file that can't be opened it is told what the system says.
fn is_told_by_system(rt: &HostRuntime, ended: DaemonEnd) -> bool {
    match ended {
        DaemonEnd::Told | DaemonEnd::Checked(_) => true,
        DaemonEnd::File(FileFault::Refused) => tell_unopened(rt),
        _ => false,
    }
}
