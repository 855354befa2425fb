//! Commands, and the words that name them.

use rule_list::RuleList;
use std::alloc::Global;
use tardis_base::StateId;

/// A site among the sites: its number, which is from 1 to theirs, and how many they are, from 1 to 16.
#[derive(Clone, Copy, PartialEq, Eq)]
pub struct Place {
    pub sites: u16,
    pub site: u16,
}

/// What `serve` is to do.
#[derive(Drop)]
pub struct ServePlan {
    pub place: Place,
    /// The address at which links are taken.
    pub listen: String,
    /// How many links are taken.
    pub links: u16,
    /// The addresses of the peers, in the order of the words.
    pub peers: Vec<String>,
    /// How many rounds of exchange are made.
    pub rounds: u32,
    /// Whether each round ends with a collection.
    pub tidy: bool,
}

/// A command of the program.
#[derive(Drop)]
pub enum Command {
    /// Frames in, frames out.
    Run(Place),
    /// Lines in, lines out.
    Shell(Place),
    /// Frames in, lines of requests and replies out.
    Audit(Place),
    /// Several sites in one process.
    World { sites: u16 },
    /// A site that links reach.
    Serve(ServePlan),
    /// A load that a number determines.
    Load { start: u32, steps: u32 },
    /// Lines in, lines out, and two branches are joined by rules.
    Auto { place: Place, rules: RuleList },
    /// Frames in, frames out, and the site is kept in a file.
    Durable { place: Place, path: String },
    /// What a state holds is written.
    Export { place: Place, state: StateId },
    /// Requests are written that bring a site to what was exported.
    Import,
}

/// Why words are no command.
#[derive(Clone, Copy)]
pub enum WordsFault {
    /// They have none of the forms.
    Usage,
    /// They have the form of `serve`, of `auto` or of `durable`, whose texts found no memory.
    NoMemory,
}
