//! What is noted of a site before a request, so that what lasts of it is seen behind it.

ghost use Rattle.std.specs.Prelude.{◌≡◌, ◌+◌, ◌<◌, ◌≤◌, ℕ, List, length, get_or, option_map};
ghost use Rattle.tardis_base.specs.declared.records.Item.TheVariants.{Promise};
ghost use Rattle.plain_dag.specs.Floors.{floor_of};
ghost use Rattle.ceiling_book.specs.Book.{floors_of};
ghost use Rattle.plain_site.specs.Site.{Site};
ghost use Rattle.plain_site.specs.Rest.{News, promise_of, promise_between};
ghost use Rattle.session_core.specs.Machine.{SiteStands};
ghost use Rattle.rest_site.specs.Notes.{IsNoted};

use ceiling_book::CeilingBook;
use session_core::SiteCore;
use tardis_base::{Consent, MAX_SITES};

/// The most sites.
const SITES: usize = MAX_SITES as usize;

/// What is noted of a site: how many states are known and how many are kept, and the number of each site's floor.
#[derive(Clone, Copy)]
pub(crate) struct Noted {
    pub(crate) known: u64,
    pub(crate) kept: u32,
    pub(crate) numbers: [u32; SITES],
}

/// Notes the site, at a cost that grows with the number of sites.
pub(crate) fn note(core: &SiteCore) -> Noted
    ensures { (site : Site) → SiteStands core.now site → IsNoted result site }
{
    let dag = core.store().dag();
    Noted {
        known: dag.known(),
        kept: dag.kept(),
        numbers: numbers(core.book()),
    }
}

/// The number of each site's floor.
fn numbers(book: &CeilingBook) -> [u32; SITES]
    ensures { (i : ℕ) → i < length (floors_of book.now) → get_or result i 0 ≡ (floor_of (floors_of book.now) (i + 1)).number }
{
    let mut numbers = [0; SITES];
    for place in 0..book.sites() {
        let (_, number, _) = book.floor(place + 1);
        numbers[usize::from(place)] = number;
    }
    numbers
}

/// The promise of the first site whose floor has a higher number than was noted.
pub(crate) fn raised(core: &SiteCore, before: &Noted) -> Option<Consent>
    ensures { (old behind : Site) → IsNoted before.now old → SiteStands core.now behind → length old.floors ≡ length behind.floors
        → option_map (λ c. News (Promise c)) result ≡ promise_between 1 old.floors behind.floors }
{
    for place in 0..core.book().sites() {
        let (_, number, _) = core.book().floor(place + 1);
        if before.numbers[usize::from(place)] < number {
            return Some(promise_of(core, place + 1));
        }
    }
    None
}

/// The promise of the site's floor.
fn promise_of(core: &SiteCore, site: u16) -> Consent
    requires first { 1 ≤ site }
    requires last { site ≤ length (floors_of core.now.book) }
    ensures { (behind : Site) → SiteStands core.now behind → News (Promise result) ≡ promise_of site (floor_of behind.floors site) }
{
    let (floor, number, count) = core.book().floor(site);
    Consent {
        site,
        number,
        floor: core.store().dag().id_of(floor),
        count,
    }
}
