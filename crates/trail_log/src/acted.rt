//! How a request with a trail ends.

/// What became of a request.
#[derive(Clone, Copy, PartialEq, Eq)]
pub enum Acted {
    /// It was answered, and is the last entry of the trail.
    Done,
    /// The trail has so many bytes, and with this entry it would have more than it may.
    TrailFull { bytes: u64 },
    /// There was no memory.
    NoMemory,
}
