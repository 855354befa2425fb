//! Giving all of some bytes.

ghost use Rattle.std.specs.Prelude.{◌≡◌};
ghost use Rattle.tardis_io.specs.Told.{WhileTold, GivesAll};
ghost use Rattle.tardis_io.specs.Faults.{HasCause};

use crate::faults::{Failed, WriteFault};
use crate::streams::Sink;

/// Gives all bytes. After a fault a front of them was given.
pub fn write_all<O: Sink>(output: &mut O, bytes: &[u8]) -> Result<(), WriteFault>
    ensures bytes { WhileTold (O.given output.old) (O.given output.new) (λ before after. GivesAll before after result bytes.now) }
    ensures cause { HasCause (O.faults output.old) (O.faults output.new) result }
    ensures kept { O.kept output.new ≡ O.kept output.old }
{
    let mut done = 0;
    while done < bytes.len() {
        match output.give(&bytes[done..]) {
            Ok(count) => done += count,
            Err(Failed) => return Err(WriteFault),
        }
    }
    Ok(())
}
