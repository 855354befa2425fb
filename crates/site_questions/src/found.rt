//! Copies of what is read.

ghost use Rattle.std.specs.Prelude.{◌≡◌, IfOk};
ghost use Rattle.version_list.specs.Reads.{found};

use tardis_base::{Found, NoMemory, StateId, Write};

/// Who wrote what was read, and a copy of what that one wrote; nothing where nothing was found.
pub fn version_of(read: Found<'_>) -> Result<Option<(StateId, Write)>, NoMemory>
    ensures { IfOk result (λ version. version ≡ found read.entry) }
{
    match read {
        Found::Value { writer, value } => Ok(Some((writer, Write::Put(value.copy()?)))),
        Found::Deleted { writer } => Ok(Some((writer, Write::Delete))),
        Found::Absent => Ok(None),
    }
}
