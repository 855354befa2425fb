//! What may be asked of a site without a session: questions, and what is told. A question belongs to no session and no
//! transaction, and changes nothing: what is told is a function of the plain site alone (`specs/Answer.antt`). No program
//! answers questions yet. Each function here is empty, and its contract is a law or worked rows. `docs/MODEL.md` has each
//! definition beside its rule, and `docs/FORMATS.md` the bytes.
#![tactic(auto)]

pub mod answer_codes;
pub mod question_codes;
mod questions;
pub mod reading_laws;
pub mod rows;
pub mod spelling_laws;

pub use questions::{
    Answered, Denial, Entry, EntryList, FORMAT_VERSION, ForkRead, ForkReadList, Question,
    SessionLine, SessionLines,
};
