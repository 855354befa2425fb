//! The history of a site, as definitions (`specs/`), and what follows from them. The program calls none of it: each
//! function here is empty, and its contract is a law. `docs/MODEL.md` has each definition beside its rule.
#![tactic(auto)]

pub mod landings;
pub mod orders;
pub mod rows;
