//! What follows from what a site in memory stands for. The program calls none of it: the function here is empty, and its
//! contract is a law.
#![tactic(auto)]

ghost use Rattle.session_core.specs.Core.{Core};
ghost use Rattle.session_laws.specs.Laws.{GivesOneReply};

/// Where states are collected, a site in memory stands for more than one plain site. All of them give the same reply to
/// each request of each session, so that it stands for several leaves its reply no choice. This call does nothing.
pub fn one_site_gives_one_reply()
    ensures { (core : Core) → GivesOneReply core }
{}
