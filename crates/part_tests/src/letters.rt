//! What is told of a reading.

use tardis_base::ReadFault;

/// The first letter of what is answered: r where something was read, m for Malformed, n for want of memory.
pub(crate) fn letter<T: Drop>(read: Result<T, ReadFault>) -> u8 {
    match read {
        Ok(_) => b'r',
        Err(ReadFault::Malformed) => b'm',
        Err(ReadFault::NoMemory) => b'n',
    }
}
