//! Exports of the states of a store.

ghost use Rattle.std.specs.Prelude.{◌≡◌, ◌+◌, ◌≤◌, ◌++◌, ◌⊎◌, [], ℕ, List, Some, Err, length, map, flat_map, IsTrue};
ghost use Rattle.tardis_base.specs.Sizes.{longest_frame};
ghost use Rattle.tardis_base.specs.declared.ids.StateId.{StateId};
ghost use Rattle.tardis_base.specs.declared.records.Record.{Record};
ghost use Rattle.tardis_base.specs.Valid.{is_key, is_value};
ghost use Rattle.tardis_io.specs.Told.{WhileTold};
ghost use Rattle.tardis_io.specs.Faults.{HasCause, Rose};
ghost use Rattle.state_dag.specs.Table.{id_at, is_slot};
ghost use Rattle.version_list.specs.Reads.{found};
ghost use Rattle.record_store.specs.Stands.{StoreStands};
ghost use Rattle.branch_export.specs.Exports.{entry_spelling};
ghost use Rattle.branch_export.specs.Live.{spelled};
ghost use Rattle.branch_export.specs.Exported.{Exported};
ghost use Rattle.branch_export.specs.Gathering.{Moves, entry_bytes};

use crate::exports::live_keys;
use crate::faults::ExportFault;
use crate::gathering::{flush, make_room};
use item_bytes::{write_u8, write_u16, write_u64};
use record_store::RecordStore;
use std::alloc::Global;
use tardis_base::{Found, Key, MAX_KEY, MAX_VALUE, ReplyBuf, Slot, StateId};
use tardis_io::{Sink, WriteFault};

/// Writes the export of a state: each key whose read there is a value, with the value, as `docs/EXPORT.md` says.
///
/// All memory comes before the first byte: a reference to each key, and a mebibyte in which bytes are gathered, so that they
/// are given in few pieces. A value is copied into that alone. The cost grows with the number of all keys of the store, and with
/// the bytes that are written.
pub fn export_store<O: Sink>(
    alloc: Global,
    store: &RecordStore,
    state: StateId,
    output: &mut O,
) -> Result<(), ExportFault>
    ensures exported { (rs : List Record) (ks : List StateId) → StoreStands store.now rs ks
        → Exported rs ks state (O.given output.old) (O.given output.new) result }
    ensures nothing { (result ≡ Err ExportFault.NoState) ⊎ (result ≡ Err ExportFault.NoMemory) → output.new ≡ output.old }
    ensures later { O.faults output.old ≤ O.faults output.new }
    ensures cause { result ≡ Err ExportFault.WriteFault → Rose (O.faults output.old) (O.faults output.new) }
{
    let Some(slot) = store.dag().slot_of(state) else {
        return Err(ExportFault::NoState);
    };
    let keys = live_keys(alloc, store, slot)?;
    let mut gathered = ReplyBuf::new(alloc)?;
    match write_entries(store, slot, keys.as_slice(), &mut gathered, output) {
        Ok(()) => Ok(()),
        Err(WriteFault) => Err(ExportFault::WriteFault),
    }
}

/// Writes how many keys these are, and each with the value that is read of it at the state of this slot. Nothing is
/// gathered yet.
fn write_entries<O: Sink>(
    store: &RecordStore,
    slot: Slot,
    keys: &[&Key],
    gathered: &mut ReplyBuf,
    output: &mut O,
) -> Result<(), WriteFault>
    requires slot { IsTrue (is_slot store.now.table slot) }
    requires none { gathered.old ≡ [] }
    ensures written { (rs : List Record) (ks : List StateId) → StoreStands store.now rs ks → (x : StateId) → id_at store.now.table slot ≡ Some x
        → WhileTold (O.given output.old) (O.given output.new) (λ before after. Moves before (spelled rs x (map (λ k. k.now) keys.now)) after [] result) }
    ensures cause { HasCause (O.faults output.old) (O.faults output.new) result }
{
    write_u64(keys.len() as u64, gathered);
    for key in keys {
        match make_room(gathered, output, LONGEST_ENTRY) {
            Ok(()) => put_entry(key, store.read_at(slot, key), gathered),
            Err(WriteFault) => return Err(WriteFault),
        }
    }
    flush(gathered, output)
}

/// The most bytes of an entry.
pub(crate) const LONGEST_ENTRY: usize = 1 + MAX_KEY + 2 + MAX_VALUE;

/// Writes an entry, a key and its value, behind these bytes.
pub(crate) fn write_entry(key: &[u8], value: &[u8], out: &mut ReplyBuf)
    requires key { IsTrue (is_key key.now) }
    requires value { IsTrue (is_value value.now) }
    requires room { length out.old + 4227 ≤ longest_frame }
    ensures { out.new ≡ out.old ++ entry_spelling (key.now, value.now) }
{
    write_u8(key.len() as u8, out);
    out.push(key);
    write_u16(value.len() as u16, out);
    out.push(value);
}

/// Puts the key and the value behind what was gathered, where a value was read.
fn put_entry(key: &Key, read: Found<'_>, gathered: &mut ReplyBuf)
    requires { length gathered.old + 4227 ≤ longest_frame }
    ensures { gathered.new ≡ gathered.old ++ entry_bytes key.now (found read.entry) }
{
    match read {
        Found::Value { value, .. } => write_entry(key.as_slice(), value.as_slice(), gathered),
        Found::Deleted { .. } | Found::Absent => {}
    }
}
