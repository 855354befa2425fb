//! Many links of a server at once: each is served by a session of its own, in a thread of its own.
#![tactic(auto)]

mod ends;
mod laws;
mod pools;

pub use ends::{PoolEnd, Served};
pub use laws::servings_last;
pub use pools::serve_all;
