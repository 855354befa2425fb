//! The program: makes the real input, output, gate, dial and store, hands them to `tardis_main`, and tells how it ended.
//!
//! The commands and the statuses are stated in `docs/COMMANDS.md`.
#![tactic(auto)]

ghost use Rattle.std.specs.Prelude.{◌≡◌};
ghost use Rattle.std.specs.Process.{exit_status};
ghost use Rattle.tardis_io.specs.Statuses.{status_number};

use disk_forms::FileStore;
use session_core::SiteCore;
use socket_links::{SocketDial, SocketGate, TellingDial, TellingGate};
use std::env::{self, Args};
use std::hash::RandomState;
use std::io::{self, Eprint};
use std::process::ExitCode;
use tardis_io::{Status, StdIn, StdOut};
use tardis_main::carry_out;

fn main(rt: HostRuntime) -> ExitCode {
    let alloc = rt.alloc();
    let mut input = StdIn::new(rt.stdin());
    let mut output = StdOut::new(rt.stdout());
    let status = match asked(&rt) {
        Ok(Given { args, keys }) => {
            let mut gate = TellingGate::new(&rt, SocketGate::new(&rt));
            let mut dial = TellingDial::new(&rt, SocketDial::new(&rt));
            let mut store = FileStore::new(alloc, &rt);
            carry_out::<SiteCore, _, _, _, _, _, _>(
                alloc,
                &rt,
                keys,
                args,
                &mut input,
                &mut output,
                &mut gate,
                &mut dial,
                &mut store,
            )
        }
        Err(status) => status,
    };
    end(&rt, status)
}

/// What the system gives a program when it starts.
#[derive(Drop)]
struct Given {
    args: Args,
    keys: RandomState,
}

/// The arguments of the program, and a seed for its hashing.
fn asked(rt: &HostRuntime) -> Result<Given, Status> {
    let args = match env::args(rt) {
        Ok(args) => args,
        Err(error) if error.kind() == io::ErrorKind::OutOfMemory => return Err(Status::NoMemory),
        // words that are no text have no form of a command
        Err(_) => return Err(Status::Usage),
    };
    match RandomState::new(rt) {
        Ok(keys) => Ok(Given { args, keys }),
        // a system without random bytes to give is told as one without memory
        Err(_) => Err(Status::NoMemory),
    }
}

/// Writes the line of the status, if it has one, on standard error, and gives its number.
fn end(rt: &HostRuntime, status: Status) -> ExitCode
    ensures { exit_status result ≡ status_number status }
{
    if status != Status::Ok {
        let _ = rt.eprintln(status);
    }
    ExitCode::from(status.number())
}
