//! The line that tells of a load.

ghost use Rattle.std.specs.Prelude.{◌≡◌, ◌++◌, decimal, IfOk, OnOk};
ghost use Rattle.load_run.specs.Lines.{line_of};

use crate::counts::Counts;
use itoa::Buffer;
use std::alloc::Global;
use tardis_base::NoMemory;

/// Puts a name and a number behind it at the end of a line.
fn put_field(line: &mut Vec<u8>, name: &[u8], number: u64) -> Result<(), NoMemory>
    ensures { OnOk result (line.new.items ≡ line.old.items ++ name.now ++ decimal number) }
{
    let mut digits = Buffer::new();
    line.extend_from_slice(name)?;
    line.extend_from_slice(digits.format(number).as_bytes())?;
    Ok(())
}

/// The line of a load that was counted so, and of a site that knows and keeps so many states.
pub(crate) fn line_of(
    alloc: Global,
    start: u32,
    steps: u32,
    counts: &Counts,
    known: u64,
    kept: u32,
) -> Result<Vec<u8>, NoMemory>
    ensures { IfOk result (λ line. line.items ≡ line_of start steps counts.now known kept) }
{
    let mut line = Vec::new(alloc);
    put_field(&mut line, b"load start ", u64::from(start))?;
    put_field(&mut line, b" steps ", u64::from(steps))?;
    put_field(&mut line, b" events ", counts.events)?;
    put_field(&mut line, b" committed ", counts.committed)?;
    put_field(&mut line, b" refused ", counts.refused)?;
    put_field(&mut line, b" known ", known)?;
    put_field(&mut line, b" kept ", u64::from(kept))?;
    line.push(b'\n')?;
    Ok(line)
}
