//! The bytes of what sites keep and send to each other are read and written: records, consents, items and batches.
#![tactic(auto)]

mod batch_readers;
mod readers;
mod thing_readers;
mod whole_readers;
mod writers;

pub use readers::Reader;
pub use whole_readers::{read_batch, read_consent, read_item, read_record, whole};
pub use writers::{
    key_write_len, record_len, write_batch, write_consent, write_id, write_ids, write_item,
    write_key, write_parents, write_record, write_u8, write_u16, write_u32, write_u64, write_value,
};
