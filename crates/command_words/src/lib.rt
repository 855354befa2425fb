//! The words of a command: which have a form, and what they say.
//!
//! The forms are stated in `docs/COMMANDS.md`.
#![tactic(auto)]

mod behind;
mod commands;
mod forms;
mod helps;
mod ids;
mod laws;
mod limits;
mod numbers;
mod peers;
mod placed;
mod reading;
mod settings;

pub use behind::words_behind_name;
pub use commands::{Command, Place, ServePlan, WordsFault};
pub use forms::{read_number_or, read_place, read_tidy};
pub use helps::{Help, help_of};
pub use laws::commands_are_at_a_site;
pub use numbers::{is_address, read_number};
pub use peers::count_of;
pub use reading::read_words;
pub use settings::{Given, Split, are_only, how_given, split_first};
