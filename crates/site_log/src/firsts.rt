//! What stands first in a file, for whoever doesn't know whose log it is.

ghost use Rattle.site_log.specs.News.{IsNew};
ghost use Rattle.site_log.specs.Firsts.{TellsFirst};

use crate::ends::OpenEnd;
use crate::makes::is_new;
use log_groups::{FirstItem, LogFront, read_front};
use std::alloc::Global;
use tardis_base::NoMemory;

/// What a file is, by what stands first in it.
#[derive(Clone, Copy)]
pub enum FirstFound {
    /// No log was begun in it.
    New,
    /// A log, which says this first.
    Log(LogFront),
}

/// Tells of all bytes of a file whether they are a new file's, or what the log in them says first, whosever it is. At most about 2 MiB
/// of memory are taken, for one item.
pub fn read_first(alloc: Global, bytes: &[u8]) -> Result<FirstFound, OpenEnd>
    ensures { TellsFirst bytes.now result }
{
    match is_new(bytes, alloc) {
        Ok(true) => Ok(FirstFound::New),
        Ok(false) => first_of(alloc, bytes),
        Err(NoMemory) => Err(OpenEnd::NoMemory),
    }
}

/// What the log says first that stands in bytes which are no new file's.
fn first_of(alloc: Global, bytes: &[u8]) -> Result<FirstFound, OpenEnd>
    requires other { IsNew bytes.now → ⊥ }
    ensures { TellsFirst bytes.now result }
{
    let mut item = Vec::new(alloc);
    match read_front(bytes, &mut item, alloc) {
        Ok(FirstItem::Front(front, _)) => Ok(FirstFound::Log(front)),
        Ok(FirstItem::NotALog) => Err(OpenEnd::NotALog),
        Ok(FirstItem::OtherVersion(version)) => Err(OpenEnd::OtherVersion(version)),
        Ok(FirstItem::BadFront) => Err(OpenEnd::BadFront),
        Err(NoMemory) => Err(OpenEnd::NoMemory),
    }
}
