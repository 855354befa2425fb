//! The command of a durable site.

ghost use Rattle.std.specs.Prelude.{◌≡◌, ◌≤◌, IsTrue};
ghost use Rattle.tardis_base.specs.Valid.{are_limits};
ghost use Rattle.plain_site.specs.Site.{opening};
ghost use Rattle.site_commands.specs.Ends.{CausedBy};
ghost use Rattle.durable_run.specs.Commands.{DurableEnds, PromptEnds};

use crate::site_runs::run_site_on_device;
use any_site::AnySite;
use disk_store::Store;
use std::alloc::Global;
use std::hash::RandomState;
use tardis_base::Limits;
use tardis_io::{Duplex, Failed, Pair, Sink, Source, Status};

/// Answers frames of requests by frames of the replies of the site of this number, with these limits, over the journal in the
/// file at this path, which is made where there is none. Each reply is written once its request is on the disk. The file goes
/// back to the store, whatever the end.
///
/// `Status::DiskFault` says that the file couldn't be opened, or that its disk failed: then nothing is lost that was answered, and
/// the command may be started again on the same file. What is promised is described in `docs/DURABLE.md`.
pub fn durable<A: AnySite, S: Store, I: Source, O: Sink>(
    alloc: Global,
    keys: RandomState,
    limits: Limits,
    own: u16,
    path: &str,
    store: &mut S,
    input: &mut I,
    output: &mut O,
) -> Status
    requires limits { IsTrue (are_limits limits) }
    requires first { 1 ≤ own }
    requires last { own ≤ limits.sites }
    ensures ends { DurableEnds S.Store S.Disk.Disk I.Source O.Sink path.now store.old store.new input.old input.new output.old output.new (opening limits own) limits.max_trail result }
    ensures disk { CausedBy Status.DiskFault (S.faults store.old) (S.faults store.new) result }
    ensures read { CausedBy Status.ReadFault (I.faults input.old) (I.faults input.new) result }
    ensures write { CausedBy Status.WriteFault (O.faults output.old) (O.faults output.new) result }
{
    durable_device::<A, _, _>(
        alloc,
        keys,
        limits,
        own,
        path,
        store,
        &mut Pair { input, output },
    )
}

/// The same over one device. Before each take all frames in the bytes taken so far were answered, and all answers given.
pub fn durable_device<A: AnySite, S: Store, D: Duplex>(
    alloc: Global,
    keys: RandomState,
    limits: Limits,
    own: u16,
    path: &str,
    store: &mut S,
    device: &mut D,
) -> Status
    requires limits { IsTrue (are_limits limits) }
    requires first { 1 ≤ own }
    requires last { own ≤ limits.sites }
    ensures ends { PromptEnds S.Store S.Disk.Disk D.Duplex.own D.Sink path.now store.old store.new device.old device.new (opening limits own)
        limits.max_trail result }
    ensures disk { CausedBy Status.DiskFault (S.faults store.old) (S.faults store.new) result }
    ensures read { CausedBy Status.ReadFault (D.take_faults device.old) (D.take_faults device.new) result }
    ensures write { CausedBy Status.WriteFault (D.faults device.old) (D.faults device.new) result }
    ensures parts { D.parts device.new ≡ D.parts device.old }
{
    match store.open_file(path) {
        Ok(disk) => {
            let (status, disk) = run_site_on_device::<A, _, _>(
                alloc, keys, limits, own, disk, device,
            );
            store.put_back(disk);
            status
        }
        Err(Failed) => Status::DiskFault,
    }
}
