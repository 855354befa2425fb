//! Imports: exports turned into scripts.

ghost use Rattle.std.specs.Prelude.{◌≡◌, ◌≤◌, ◌<◌, [], false, length};
ghost use Rattle.tardis_io.specs.Told.{WhileTold};
ghost use Rattle.tardis_io.specs.Faults.{Rose};
ghost use Rattle.site_run.specs.Endings.{most_taken};
ghost use Rattle.branch_export.specs.Imported.{ImportEnds, Imported, ImportsAs, IsImportEnd, has_given};

use crate::inputs::{InputFault, read_whole};
use crate::judging::is_export;
use crate::scripts::write_script;
use std::alloc::Global;
use tardis_base::{NoMemory, ReplyBuf};
use tardis_io::{Sink, Source, Status, WriteFault};

/// Reads an export to its end, and then writes the frames that bring a fresh site to the same contents, as `docs/EXPORT.md`
/// says. Nothing is written unless all of the input was read and is an export.
///
/// What was read is kept, in room of at most twice its bytes; the frames are gathered in a mebibyte. The cost grows with the
/// bytes, which are looked through twice.
pub fn run_import<I: Source, O: Sink>(alloc: Global, input: &mut I, output: &mut O) -> Status
    ensures outcome { WhileTold (I.left input.old) (I.left input.new) (Imported result (O.given output.old) (O.given output.new)) }
    ensures exact { WhileTold (I.left input.old) (I.left input.new) (λ first left. length first < most_taken
        → (Rose (I.faults input.old) (I.faults input.new) → ⊥) → (Rose (O.faults output.old) (O.faults output.new) → ⊥)
        → ImportsAs first result) }
    ensures status { IsImportEnd result }
    ensures read_later { I.faults input.old ≤ I.faults input.new }
    ensures write_later { O.faults output.old ≤ O.faults output.new }
    ensures read { result ≡ Status.ReadFault → Rose (I.faults input.old) (I.faults input.new) }
    ensures write { result ≡ Status.WriteFault → Rose (O.faults output.old) (O.faults output.new) }
    ensures nothing { has_given result ≡ false → output.new ≡ output.old }
{
    match read_whole(alloc, input) {
        Ok(bytes) => import_bytes(alloc, bytes.as_slice(), output),
        Err(InputFault::ReadFault) => Status::ReadFault,
        Err(InputFault::NoMemory) => Status::NoMemory,
        Err(InputFault::Spent) => Status::Spent,
    }
}

/// The same over the bytes of an input that was read to its end.
fn import_bytes<O: Sink>(alloc: Global, bytes: &[u8], output: &mut O) -> Status
    ensures ends { length bytes.now < most_taken → ImportEnds result (O.given output.old) (O.given output.new) bytes.now [] }
    ensures exact { (Rose (O.faults output.old) (O.faults output.new) → ⊥) → ImportsAs bytes.now result }
    ensures status { IsImportEnd result }
    ensures later { O.faults output.old ≤ O.faults output.new }
    ensures read { result ≡ Status.ReadFault → ⊥ }
    ensures write { result ≡ Status.WriteFault → Rose (O.faults output.old) (O.faults output.new) }
    ensures nothing { has_given result ≡ false → output.new ≡ output.old }
{
    if !is_export(bytes) {
        return Status::BadExport;
    }
    match ReplyBuf::new(alloc) {
        Ok(mut gathered) => match write_script(bytes, &mut gathered, output) {
            Ok(()) => Status::Ok,
            Err(WriteFault) => Status::WriteFault,
        },
        Err(NoMemory) => Status::NoMemory,
    }
}
