//! What each question is answered.

ghost use Rattle.std.specs.Prelude.{◌≡◌, IsTrue, IsOk, IfOk};
ghost use Rattle.plain_site.specs.Site.{Site};
ghost use Rattle.session_core.specs.Machine.{SiteStands};
ghost use Rattle.plain_questions.specs.Answer.{answer};
ghost use Rattle.site_questions.specs.Sure.{is_sure_question};

use crate::bases::tell_base;
use crate::pages::{tell_entries, tell_keys};
use crate::reads::tell_read;
use crate::records::tell_record;
use crate::sessions::tell_sessions;
use crate::sites::tell_site;
use plain_questions::{Answered, Question};
use session_core::SiteCore;
use std::alloc::Global;
use tardis_base::NoMemory;

/// What the site tells where this is asked. It changes nothing, and what is told is a copy.
///
/// The cost of At is that of a read. That of Site is the same for each site. That of Record grows with the children of the
/// state and with the keys that it holds, for each with a read. That of Base is that of `fork_points`, and of a read at each
/// fork point. That of Sessions grows with the number of open sessions, beside the search for the floor, which costs what
/// `CeilingBook::raise_auto` says. That of Keys and Scan grows with the number of all keys of the store, since these stand in
/// no order, for each that is asked for with a read, and with n log n for the n that are found. Site takes no memory.
pub fn answer(alloc: Global, site: &SiteCore, question: &Question) -> Result<Answered, NoMemory>
    ensures told { (plain : Site) → SiteStands site.now plain → IfOk result (λ told. told ≡ answer plain question.now) }
    ensures sure { IsTrue (is_sure_question question.now) → IsOk result }
{
    let store = site.store();
    match question {
        Question::At { state, key } => tell_read(store, *state, key),
        Question::Keys {
            state,
            prefix,
            after,
        } => tell_keys(alloc, store, *state, prefix.as_slice(), after.as_slice()),
        Question::Scan {
            state,
            prefix,
            after,
        } => tell_entries(alloc, store, *state, prefix.as_slice(), after.as_slice()),
        Question::Record { state } => tell_record(alloc, store, *state),
        Question::Base { states, key } => tell_base(alloc, store, states.as_slice(), key),
        Question::Sessions { after } => tell_sessions(alloc, site, *after),
        Question::Site => Ok(tell_site(site)),
    }
}
