//! What a site knows of lives: its own, and that of each site that it met; and how it meets others.
//!
//! The rules are stated in `docs/MODEL.md`, 'Lives'.
#![tactic(auto)]

mod lasting_laws;
mod laws;
mod lives;
mod rows;
pub mod thing_codes;

pub use lasting_laws::{
    larger_limits_take_the_same_bytes, lives_last_beside_the_site, what_lasts_goes_on,
    what_lasts_of_the_site_is_its_own,
};
pub use laws::{meetings_leave_the_site, one_life_is_met_of_each_site};
pub use lives::{Lives, NewLife, is_of_lives};
pub use rows::{
    checkpoints_are_taken_back, empty_rows_move_the_floors, lives_outlast_the_site,
    meetings_are_answered, records_stand_behind_rows, rows_are_taken_back,
};
