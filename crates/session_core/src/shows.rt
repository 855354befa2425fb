//! What a site tells of itself.

ghost use Rattle.std.specs.Prelude.{◌≡◌, ◌≤◌, length};
ghost use Rattle.plain_dag.specs.Floors.{floor_of};
ghost use Rattle.ceiling_book.specs.Book.{floors_of};
ghost use Rattle.plain_site.specs.Site.{Site};
ghost use Rattle.plain_site.specs.Sound.{IsSound};
ghost use Rattle.plain_site.specs.Shows.{stat as stat_of, show as show_of, site_lines as lines_of, show_leaves, line_of};
ghost use Rattle.session_core.specs.Stands.{CoreStands};
ghost use Rattle.session_core.specs.Gives.{Answers, IsGiven};

use crate::Parts;
use site_answers::Stop;
use tardis_base::{Refusal, Reply, SiteLine, SiteLines, StateId, StateList};

impl Parts {
    /// How many states are known and kept, how many leaves there are and open sessions, and a line for each site. It takes
    /// no memory. The cost grows with the number of sites.
    pub(crate) fn stat(&self) -> Reply
        ensures { (site : Site) → CoreStands self.now site → IsSound site → IsGiven (CoreStands self.now) (stat_of site) result }
    {
        let dag = self.store.dag();
        Reply::Stat {
            known: dag.known(),
            kept: dag.kept(),
            leaves: dag.leaves(),
            sessions: self.book.sessions(),
            sites: self.site_lines(),
        }
    }

    /// A line for each site, in the order of their numbers.
    fn site_lines(&self) -> SiteLines
        ensures { (site : Site) → CoreStands self.now site → result ≡ lines_of site.dag 1 site.floors }
    {
        let mut lines = SiteLines::new();
        for place in 0..self.book.sites() {
            lines.push(self.site_line(place + 1));
        }
        lines
    }

    /// The line of one site.
    fn site_line(&self, number: u16) -> SiteLine
        requires first { 1 ≤ number }
        requires last { number ≤ length (floors_of self.now.book) }
        ensures { (site : Site) → CoreStands self.now site → result ≡ line_of site.dag number (floor_of site.floors number) }
    {
        let dag = self.store.dag();
        let (floor, consent, _) = self.book.floor(number);
        SiteLine {
            count: dag.count(number),
            floor: dag.id_of(floor),
            number: consent,
        }
    }

    /// When the state arrived, its children, and its fork path.
    ///
    /// Refused where there is no such state (Unknown) and where it is collected (Collected). The cost grows with the number
    /// of its children, with the length of its fork path, and with the logarithm of the number of kept states.
    pub(crate) fn show(&self, state: StateId) -> Result<Reply, Stop>
        ensures { Answers self.now self.now result (λ site. show_of site state) }
    {
        let dag = self.store.dag();
        if !dag.knows(state) {
            return Err(Stop::Refused(Refusal::Unknown { state }));
        }
        let slot = match dag.slot_of(state) {
            Some(slot) => slot,
            None => return Err(Stop::Refused(Refusal::Collected { state })),
        };
        let children = Vec::from_slice(self.alloc, dag.children(slot))?;
        Ok(Reply::Shown {
            arrival: dag.arrival(slot),
            children: StateList::from_vec(children),
            path: dag.path(slot)?,
        })
    }

    /// The leaves: how many, and the first 256 in arrival order. The cost is that of what it shows.
    pub(crate) fn leaves(&self) -> Result<Reply, Stop>
        ensures { Answers self.now self.now result (λ site. show_leaves site) }
    {
        let page = fork_points::leaf_page(self.alloc, self.store.dag())?;
        Ok(Reply::States {
            total: page.total,
            first: page.first,
        })
    }
}
