//! How states are named: by an id everywhere, by a slot inside one table.

use std::fmt;

/// The id of a state: the site that made it, and its place among the states of that site.
///
/// The root is `0.0`, and the default. Every other state has a site from 1 to 16 and a sequence from 1 on.
#[derive(Clone, Copy, Debug, Default, PartialEq, Eq, PartialOrd, Ord, Hash)]
pub struct StateId {
    pub site: u16,
    pub sequence: u32,
}

impl StateId {
    /// The state from which all others descend.
    pub const ROOT: StateId = StateId {
        site: 0,
        sequence: 0,
    };
}

/// Site and sequence with a point between them, as `1.5`.
impl fmt::Display for StateId {
    fn fmt<W: fmt::Write>(&self, f: &mut fmt::Formatter<W>) -> fmt::Result {
        let StateId { site, sequence } = *self;
        write!(f, "{site}.{sequence}")
    }
}

/// The place of a kept state in one table of states. It says nothing of arrival.
#[derive(Clone, Copy, Default, PartialEq, Eq, Hash)]
pub struct Slot(pub u32);
