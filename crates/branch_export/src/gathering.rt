//! Bytes that are gathered before they are given.

ghost use Rattle.std.specs.Prelude.{◌≡◌, ◌+◌, ◌≤◌, [], length, OnOk};
ghost use Rattle.tardis_base.specs.Sizes.{longest_frame};
ghost use Rattle.tardis_io.specs.Told.{WhileTold, GivesAll};
ghost use Rattle.tardis_io.specs.Faults.{HasCause};
ghost use Rattle.branch_export.specs.Gathering.{Moves};

use tardis_base::{MAX_FRAME, ReplyBuf};
use tardis_io::{Sink, WriteFault, write_all};

/// Gives what was gathered, where so many bytes more may find no room behind it.
pub(crate) fn make_room<O: Sink>(
    gathered: &mut ReplyBuf,
    output: &mut O,
    count: usize,
) -> Result<(), WriteFault>
    requires { count ≤ longest_frame }
    ensures moved { WhileTold (O.given output.old) (O.given output.new) (λ before after. Moves before gathered.old after gathered.new result) }
    ensures room { OnOk result (length gathered.new + count ≤ longest_frame) }
    ensures cause { HasCause (O.faults output.old) (O.faults output.new) result }
{
    if gathered.len() <= MAX_FRAME - count {
        Ok(())
    } else {
        flush(gathered, output)
    }
}

/// Gives what was gathered.
pub(crate) fn flush<O: Sink>(gathered: &mut ReplyBuf, output: &mut O) -> Result<(), WriteFault>
    ensures given { WhileTold (O.given output.old) (O.given output.new) (λ before after. GivesAll before after result gathered.old) }
    ensures none { gathered.new ≡ [] }
    ensures cause { HasCause (O.faults output.old) (O.faults output.new) result }
{
    let written = write_all(output, gathered.bytes());
    gathered.clear();
    written
}
