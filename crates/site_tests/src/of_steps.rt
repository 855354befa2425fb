//! Worked rows asked of the site's step, over requests and replies and not over their bytes.

ghost use Rattle.std.specs.Prelude.{IsTrue};
ghost use Rattle.session_core.specs.Machine.{IsTold};
ghost use Rattle.wire_talk.specs.Valid.{is_request};

use crate::floor_rows::{BESIDE, CEILINGS, FOLLOWED, RAISED_CHAIN};
use crate::merge_rows::{APART, BRANCHED, CART, JOINED, MERGED_TWICE, ONE_STATE, PAST_MERGES};
use crate::of_limits::chained;
use crate::rows::{
    ANY_AFTER, AT_AFTER, BEHIND, COUNTED, LAST_COMMITS, NB_REFUSES, NO_STATE, RIPPLE, SER_FORKS,
    SI_PASSES, SKEWED,
};
use crate::sites::{LIMITS, keys};
use crate::talks::{Row, Talk};
use session_core::SiteCore;
use std::alloc::Global;
use std::hash::RandomState;
use std::process::Abort;
use talk_bytes::{read_request, write_reply};
use tardis_base::{Limits, Reply, ReplyBuf, Request};

/// The request that these bytes spell.
fn request_of(rt: &impl Abort, alloc: Global, bytes: &[u8]) -> Request
    ensures { IsTrue (is_request result) }
{
    read_request(alloc, bytes).expect(rt, "a request")
}

/// The site's reply to the request.
fn reply_to(rt: &impl Abort, site: &mut SiteCore, actor: u16, request: &Request) -> Reply
    requires { IsTrue (is_request request.now) }
    ensures { IsTold result }
{
    site.step(actor, request).expect(rt, "room")
}

/// Puts the reply into `out`, in place of what was there.
fn write(reply: &Reply, out: &mut ReplyBuf)
    requires { IsTold reply.now }
{
    out.clear();
    write_reply(reply, out);
}

/// Whether the site replies to the request of the row as the row says.
fn replies(
    rt: &impl Abort,
    alloc: Global,
    site: &mut SiteCore,
    row: &Row,
    out: &mut ReplyBuf,
) -> bool {
    let request = request_of(rt, alloc, row.asked.as_slice());
    let reply = reply_to(rt, site, row.actor, &request);
    write(&reply, out);
    drop(reply);
    drop(request);
    out.bytes() == row.told.as_slice()
}

/// Whether the site replies so to the requests of all rows.
fn replies_to_all(
    rt: &impl Abort,
    alloc: Global,
    site: &mut SiteCore,
    rows: &[Row],
    out: &mut ReplyBuf,
) -> bool {
    for row in rows {
        if !replies(rt, alloc, site, row, out) {
            return false;
        }
    }
    true
}

/// A site that opens with these limits, as the first.
pub(crate) fn opened(
    rt: &impl Abort,
    alloc: Global,
    keys: RandomState,
    limits: Limits,
) -> SiteCore {
    assert!(rt; limits.valid());
    assert!(rt; 1 <= limits.sites);
    SiteCore::new(alloc, keys, limits, 1).expect(rt, "room")
}

/// Whether it replies so to the requests of a talk.
fn steps(rt: &impl Abort, alloc: Global, keys: RandomState, limits: Limits, talk: &Talk) -> bool {
    let mut site = opened(rt, alloc, keys, limits);
    let mut out = ReplyBuf::new(alloc).expect(rt, "room");
    let are_so = replies_to_all(rt, alloc, &mut site, talk.rows(), &mut out);
    drop(out);
    drop(site);
    are_so
}

/// Whether it replies so to the requests of these tables.
pub(crate) fn are_steps(
    rt: &impl Abort,
    alloc: Global,
    keys: RandomState,
    limits: Limits,
    tables: &[&str],
) -> bool {
    let talk = Talk::of(rt, alloc, tables);
    let are_so = steps(rt, alloc, keys, limits, &talk);
    drop(talk);
    are_so
}

/// Tables of rows that are asked one after another.
pub(crate) const TALKS: [&[&str]; 18] = [
    &[RIPPLE],
    &[COUNTED],
    &[LAST_COMMITS],
    &[NO_STATE],
    &[CART],
    &[PAST_MERGES],
    &[CEILINGS],
    &[RAISED_CHAIN],
    &[FOLLOWED],
    &[BESIDE],
    &[SKEWED, SER_FORKS],
    &[SKEWED, SI_PASSES],
    &[SKEWED, NB_REFUSES],
    &[BEHIND, ANY_AFTER],
    &[BEHIND, AT_AFTER],
    &[BRANCHED, MERGED_TWICE],
    &[BRANCHED, ONE_STATE],
    &[BRANCHED, JOINED, APART],
];

#[test]
fn each_request_is_a_step(rt: HostRuntime) {
    let keys = keys(&rt);
    for tables in TALKS {
        assert!(rt; are_steps(&rt, rt.alloc(), keys, LIMITS, tables));
    }
}

#[test]
fn each_of_200_commits_is_a_step(rt: HostRuntime) {
    let talk = chained(&rt, rt.alloc());
    assert!(rt; steps(&rt, rt.alloc(), keys(&rt), LIMITS, &talk));
    drop(talk);
}
