//! Sites in memory of which nobody can tell what lasts apart: laws, which the program doesn't call, and checks, which a program
//! can make.
//!
//! A site in memory says nothing of what was collected, so that it stands for many plain sites: for the history that was, and for
//! each shorter one that leaves the same. `docs/MODEL.md`, 'A site at rest', says what lasts of a site.
#![tactic(auto)]

ghost use Rattle.twin_sites.specs.Laws.{CoresOfOneSiteAreTwins, SitesOfOneCoreRestAlike, TwinsRestAlike, TwinsStandWithSessions, SessionsDontLast};

mod sites;

pub use sites::{last_commits_stay, rest_alike};

/// Sites in memory that stand for one site, but for what doesn't last of it, are twins. This call does nothing, nor do those below.
pub fn cores_of_one_site_are_twins()
    ensures { CoresOfOneSiteAreTwins }
{}

/// What stands for a site at rest stands at rest for each site that some site in memory stands for beside that one.
pub fn sites_of_one_core_rest_alike()
    ensures { SitesOfOneCoreRestAlike }
{}

/// Where the other one of two twins stands for a site at rest, it stands for each site at rest that the one stands for.
pub fn twins_rest_alike()
    ensures { TwinsRestAlike }
{}

/// The one of two twins stands for each site that the other stands for, with its own sessions, where their last commits stay.
pub fn twins_stand_with_sessions()
    ensures { TwinsStandWithSessions }
{}

/// A site with other sessions is the same at rest.
pub fn sessions_dont_last()
    ensures { SessionsDontLast }
{}
