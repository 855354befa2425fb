//! The open sessions, and where the floor would stand.

ghost use Rattle.std.specs.Prelude.{◌≡◌, ℕ, Bool, List, [], ◌∷◌, map, filter, Some, IfOk};
ghost use Rattle.std.specs.Option.{option_copied, option_map_or};
ghost use Rattle.tardis_base.specs.declared.ids.StateId.{StateId};
ghost use Rattle.tardis_base.specs.Ids.{same_id};
ghost use Rattle.plain_dag.specs.Floors.{Session};
ghost use Rattle.ceiling_book.specs.Book.{session_of};
ghost use Rattle.merge_txn.specs.declared.Txn.{Txn};
ghost use Rattle.plain_site.specs.Site.{Site};
ghost use Rattle.session_core.specs.Stands.{CoreStands};
ghost use Rattle.session_core.specs.Machine.{SiteStands};
ghost use Rattle.plain_questions.specs.Answer.{sessions_told, session_line, is_session_behind, next_floor};
ghost use Rattle.site_questions.specs.Txns.{states_of};

use crate::pages::number_of;
use ceiling_book::OpenSession;
use merge_txn::Txn;
use plain_questions::{Answered, SessionLine, SessionLines};
use session_core::SiteCore;
use std::alloc::Global;
use tardis_base::{MAX_NAMED, NoMemory, StateId, StateList};

/// Where the floor would stand if it were raised now, how many sessions have numbers above this one, and the first 256 of them.
pub fn tell_sessions(
    alloc: Global,
    site: &SiteCore,
    after: Option<u16>,
) -> Result<Answered, NoMemory>
    ensures { (plain : Site) → SiteStands site.now plain → IfOk result (λ told. told ≡ sessions_told plain after) }
{
    let floor = floor_of(site);
    let mut lines = lines_behind(alloc, site, after, floor)?;
    let total = number_of(lines.len());
    lines.truncate(MAX_NAMED);
    Ok(Answered::Sessions {
        floor,
        total,
        first: SessionLines::from_vec(lines),
    })
}

/// Where the own floor would stand if it were raised now.
fn floor_of(site: &SiteCore) -> StateId
    ensures { (plain : Site) → SiteStands site.now plain → result ≡ next_floor plain }
{
    let dag = site.store().dag();
    dag.id_of(site.book().automatic_floor(dag))
}

/// A line for each session with a number above this one, by their numbers. The floor would stand at this state.
fn lines_behind(
    alloc: Global,
    site: &SiteCore,
    after: Option<u16>,
    floor: StateId,
) -> Result<Vec<SessionLine>, NoMemory>
    ensures { (plain : Site) → CoreStands site.now plain → floor ≡ next_floor plain
        → IfOk result (λ lines. lines.items ≡ map (session_line plain) (filter (is_session_behind after) plain.sessions)) }
{
    let mut lines = Vec::new(alloc);
    for (number, session) in site.book().open_sessions() {
        if is_behind(after, *number) {
            lines.push(line_of(alloc, site, *number, session, floor)?)?;
        }
    }
    Ok(lines)
}

/// Whether the number is above the other, or there is no other.
fn is_behind(after: Option<u16>, number: u16) -> bool
    ensures { (s : Session) → result ≡ is_session_behind after (number, s) }
{
    match after {
        Some(other) => other < number,
        None => true,
    }
}

/// The line of one session. The floor would stand at this state.
fn line_of(
    alloc: Global,
    site: &SiteCore,
    number: u16,
    session: &OpenSession,
    floor: StateId,
) -> Result<SessionLine, NoMemory>
    ensures { (plain : Site) → CoreStands site.now plain → floor ≡ next_floor plain
        → IfOk result (λ line. line ≡ session_line plain (number, session_of session.now)) }
{
    Ok(SessionLine {
        number,
        follow: session.follow,
        ceiling: session.ceiling.state,
        last: session.last.state,
        reads: states_read(alloc, site.txn(number))?,
        holds: is_same(session.ceiling.state, floor),
    })
}

fn is_same(a: StateId, b: StateId) -> bool
    ensures { result ≡ same_id a b }
{
    a == b
}

/// The states that the transaction reads; none where there is no transaction.
fn states_read(alloc: Global, txn: Option<&Txn>) -> Result<StateList, NoMemory>
    ensures { IfOk result (λ states. states ≡ option_map_or states_of (option_copied txn.entry) []) }
{
    let mut states = StateList::new(alloc);
    match txn {
        Some(Txn::Single(single)) => states.push(single.state)?,
        Some(Txn::Merge(merge)) => return merge.states.copy(),
        None => {},
    }
    Ok(states)
}
