//! A server from its address to its trail: it listens, serves so many links, each by a session of its own, makes rounds of
//! exchanges with peers beside them, and then writes the trail of all that was asked.
#![tactic(auto)]

mod beside;
mod endings;
mod options;
mod runs;

pub use endings::{ServeEnd, Serving};
pub use options::ServeOptions;
pub use runs::serve_links;
