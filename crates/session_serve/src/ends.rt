//! How a session ends.

/// How a session ends, as a run over its link would.
#[derive(Clone, Copy)]
pub enum SessionEnd {
    /// The link's bytes were read to their end, and all replies were given.
    Ended,
    /// The link's bytes ended inside a frame.
    Cut,
    /// A length word was above 1,048,576.
    LongFrame { len: u32 },
    /// The link failed where bytes were taken.
    ReadFault,
    /// The link failed where replies were given.
    WriteFault,
    /// 1,099,511,627,776 bytes were taken and more would have been.
    Spent,
    /// There was no memory for the session's buffers. Nothing was read, and nothing was asked.
    NoMemory,
}
