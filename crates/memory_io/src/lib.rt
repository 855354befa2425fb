//! Sources, sinks, links, a gate and a dial in memory, for tests: which of their calls fail is told when they are made.
#![tactic(auto)]

mod counting;
mod gates;
mod links;
mod moves;
mod plans;
mod sinks;
mod sources;
mod steady;

pub use counting::CountSink;
pub use gates::{MemoryDial, MemoryGate};
pub use links::MemoryLink;
pub use plans::CallPlan;
pub use sinks::MemorySink;
pub use sources::MemorySource;
pub use steady::SteadySource;
