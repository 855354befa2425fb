//! The whole plain site: what it holds and what it answers. The program calls none of it: each function here is empty, and
//! its contract is a law or a worked row. `docs/MODEL.md` has each definition beside its rule.
#![tactic(auto)]

pub mod replies;
pub mod rows;
pub mod soundness;
