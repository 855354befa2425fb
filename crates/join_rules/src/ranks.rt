//! Which site joins two leaves, where others would make the same state.

ghost use Rattle.std.specs.Prelude.{◌≡◌};
ghost use Rattle.join_rules.specs.Joints.{rank};
ghost use Rattle.join_rules.specs.Searches.{is_looked_at};

use tardis_base::StateId;

/// How long a site with this number leaves two leaves to others: 0 where it joins them at once, 1 where it waits, 2 where it waits
/// twice as long. All sites agree on it, since it depends on the two ids alone.
pub fn rank(own: u16, x: StateId, y: StateId) -> u8
    ensures { result ≡ rank own x y }
{
    if own == x.site.min(y.site) {
        0
    } else if own == x.site.max(y.site) || x.site == y.site {
        1
    } else {
        2
    }
}

/// Which pairs of leaves a search looks at: those for which the site's rank is at most its patience, or all others.
#[derive(Clone, Copy)]
pub(crate) struct Turn {
    pub(crate) own: u16,
    pub(crate) patience: u8,
    pub(crate) is_own: bool,
}

impl Turn {
    /// Whether the search looks at these two.
    pub(crate) fn looks_at(self, x: StateId, y: StateId) -> bool
        ensures { result ≡ is_looked_at self (x, y) }
    {
        let is_within = rank(self.own, x, y) <= self.patience;
        if self.is_own { is_within } else { !is_within }
    }
}
