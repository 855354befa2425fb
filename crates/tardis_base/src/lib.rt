//! The types that every layer speaks, and the machine that a site is.
#![tactic(auto)]

mod aboves;
mod byte_types;
mod faults;
mod ids;
mod lists;
mod machines;
mod readings;
mod records;
mod replies;
mod reply_bufs;
mod requests;
mod sizes;

pub use aboves::Above;
pub use byte_types::{Key, Value, checked_bytes, key_follows};
pub use faults::{AddFault, BytesFault, NoMemory, ReadFault, SeqEnd};
pub use ids::{Slot, StateId};
pub use lists::{
    ByteList, ConsentList, CountList, KeyList, KeySet, ListOf, PathList, RecordList, StateList,
    WriteSet, pushed,
};
pub use machines::{Machine, NO_MEMORY};
pub use readings::{Found, Over};
pub use records::{Batch, Consent, Item, Limits, Record, Write};
pub use replies::{Excess, Refusal, Reply, SiteLine, SiteLines};
pub use reply_bufs::ReplyBuf;
pub use requests::{Begin, EndFlags, MergeOf, Request};
pub use sizes::{
    MAX_FRAME, MAX_FRAMED, MAX_KEPT, MAX_KEY, MAX_NAMED, MAX_NEWS, MAX_PARENTS, MAX_PATH,
    MAX_READS, MAX_REQUEST, MAX_SESSIONS, MAX_SITES, MAX_TRAIL, MAX_VALUE, MAX_WAITING, MAX_WRITES,
    PIECE, USUAL_KEPT, USUAL_PATH, USUAL_SESSIONS,
};
