//! What the bytes of records, consents, items and batches are: the laws of their spellings.
#![tactic(auto)]

mod spelling_laws;

pub use spelling_laws::{spellings_have_their_lengths, things_have_one_spelling};
