//! How many states a site may keep where its clients commit.

ghost use Rattle.std.specs.Prelude.{◌≡◌, ◌≤◌, ◌&&◌, nat_lt, length};
ghost use Rattle.plain_site.specs.Site.{Site, read_states};
ghost use Rattle.session_core.specs.Machine.{SiteStands};
ghost use Rattle.session_core.specs.Stands.{txn_of};
ghost use Rattle.std.specs.Option.{option_and_then};
ghost use Rattle.wire_talk.specs.RequestReadings.{request_of};
ghost use Rattle.talk_bytes.specs.Lent.{request_lent};
ghost use Rattle.site_doors.specs.Room.{commit_flags, where_kept, share, merge_share, may_make_a_state, txn_bound, bound_for, bound_reached};

use crate::passages::first_byte;
use merge_txn::Txn;
use session_core::SiteCore;
use talk_bytes::{LentRequest, read_lent};
use tardis_base::{EndFlags, Limits};
use wire_talk::request_codes::COMMIT;
use wire_talk::talk_has_one_spelling;

/// The bound that is reached, where the body is a client's commit that isn't let in for it. It takes constant time, and the
/// transaction is looked up only where the site keeps as many states as its share.
pub fn bound_reached(core: &SiteCore, actor: u16, body: &[u8]) -> Option<u32>
    ensures { (site : Site) → SiteStands core.now site → result ≡ bound_reached site (actor, body.now) }
{
    talk_has_one_spelling();
    if first_byte(body) == COMMIT {
        reached_by_commit(core, actor, body)
    } else {
        None
    }
}

/// So it is of a body that may spell a Commit.
fn reached_by_commit(core: &SiteCore, actor: u16, body: &[u8]) -> Option<u32>
    ensures { (site : Site) → SiteStands core.now site → result ≡ bound_reached site (actor, body.now) }
{
    let dag = core.store().dag();
    let limits = dag.limits();
    let kept = dag.kept();
    if limits.sites <= 1 {
        return None;
    }
    if has_share(limits, kept) {
        return None;
    }
    match bound_for(core, actor, body) {
        Some(bound) => where_kept(kept, bound),
        None => None,
    }
}

/// The bound, where as many states are kept.
fn where_kept(kept: u32, bound: u32) -> Option<u32>
    ensures { result ≡ where_kept kept bound }
{
    if bound <= kept { Some(bound) } else { None }
}

/// Whether a site that keeps so many states keeps less than any bound.
fn has_share(limits: &Limits, kept: u32) -> bool
    requires { 1 ≤ limits.now.sites }
    ensures { result ≡ (nat_lt kept (share limits.now) && nat_lt kept (merge_share limits.now)) }
{
    kept < share(limits) && kept < merge_share(limits)
}

/// So many states may be kept where a client commits below one state.
fn share(limits: &Limits) -> u32
    requires { 1 ≤ limits.now.sites }
    ensures { result ≡ share limits.now }
{
    let sites = u32::from(limits.sites);
    (limits.max_kept / sites / sites).max(2)
}

/// So many where a client joins several.
fn merge_share(limits: &Limits) -> u32
    requires { 1 ≤ limits.now.sites }
    ensures { result ≡ merge_share limits.now }
{
    limits.max_kept.saturating_sub(share(limits) / 2)
}

/// The bound for the body, where that commits the actor's transaction and may make a state.
fn bound_for(core: &SiteCore, actor: u16, body: &[u8]) -> Option<u32>
    requires { 1 ≤ core.now.store.table.limits.sites }
    ensures { (site : Site) → SiteStands core.now site → result ≡ bound_for site (actor, body.now) }
{
    match commit_flags(body) {
        Some(flags) => match core.txn(actor) {
            Some(txn) => txn_bound(core.store().dag().limits(), flags, txn),
            None => None,
        },
        None => None,
    }
}

/// The flags, where the body spells a Commit.
fn commit_flags(body: &[u8]) -> Option<EndFlags>
    ensures { result ≡ option_and_then commit_flags (request_of body.now) }
{
    talk_has_one_spelling();
    match read_lent(body) {
        Some(lent) => flags_of(lent),
        None => None,
    }
}

/// The flags of a Commit.
fn flags_of(lent: LentRequest<'_>) -> Option<EndFlags>
    ensures { result ≡ commit_flags (request_lent lent.entry) }
{
    match lent {
        LentRequest::Commit { flags, .. } => Some(flags),
        LentRequest::Begin { .. } => None,
        LentRequest::Get { .. } => None,
        LentRequest::Put { .. } => None,
        LentRequest::Delete { .. } => None,
    }
}

/// The bound for the transaction's commit with these flags, where that may make a state.
fn txn_bound(limits: &Limits, flags: EndFlags, txn: &Txn) -> Option<u32>
    requires { 1 ≤ limits.now.sites }
    ensures { result ≡ txn_bound limits.now flags (txn_of txn.now) }
{
    if !may_make_a_state(flags, txn) {
        return None;
    }
    if reads_several(txn) {
        Some(merge_share(limits))
    } else {
        Some(share(limits))
    }
}

/// Whether the commit of the transaction with these flags may make a state.
fn may_make_a_state(flags: EndFlags, txn: &Txn) -> bool
    ensures { result ≡ may_make_a_state flags (txn_of txn.now) }
{
    match txn {
        Txn::Single(single) => !single.writes.is_empty(),
        Txn::Merge(_) => flags.0 == 0,
    }
}

/// Whether the transaction reads several states.
fn reads_several(txn: &Txn) -> bool
    ensures { result ≡ nat_lt 1 (length (read_states (txn_of txn.now))) }
{
    match txn {
        Txn::Single(_) => false,
        Txn::Merge(merge) => merge.states.len() > 1,
    }
}
