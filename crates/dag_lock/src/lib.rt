//! A lock that gives one machine to many threads, one turn after another, and keeps the trail of all that it was asked.
#![tactic(auto)]

mod bells;
mod locks;
mod passes;
mod rules;
mod turns;
mod views;

pub use locks::DagLock;
pub use passes::Pass;
