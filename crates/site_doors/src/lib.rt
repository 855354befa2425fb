//! The doors of a site: which requests come in through each, and what is answered there without the site's step.
//!
//! The rules are stated in `docs/MODEL.md`, 'Doors'.
#![tactic(auto)]

mod answers;
mod asked_logs;
mod asked_sites;
mod laws;
mod passages;
mod room;
mod rows;

pub use asked_logs::AskedLog;
pub use asked_sites::AskedSite;
pub use laws::{
    commits_keep_to_the_share, few_states_let_all_in, files_open_under_larger_limits,
    one_site_has_all_its_room, one_trail_of_a_kept_site, one_trail_of_a_site,
};
pub use passages::{FOR_ALL, FOR_CLIENTS, FOR_PEERS};
pub use rows::{commits_stop_at_the_share, doors_are_told};
