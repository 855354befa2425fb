//! Upkeep of a machine: requests that a hub asks itself, as often as enough was answered, or has waited long enough.

ghost use Rattle.std.specs.Prelude.{◌≡◌, ◌<◌, ◌≤◌, ◌+◌, [], ◌∷◌, false, nat_le, map, option_map, length, min, nat_lt, IfNone, IfSome};
ghost use Rattle.hub.specs.Upkeeps.{rule_of, wanted, first_tally, is_counted, noted, timed, passed, paid, said, nothing_said, puts_off, runs_behind, goes_on, is_soon, pays_of, waits_in, waited_by, late_of, asked, due_by};
ghost use Rattle.hub.specs.declared.ports.Seen.TheVariants.{NotedReply};
ghost use Rattle.hub.specs.Telling.{Tells};
ghost use Rattle.hub.specs.Answering.{Asked};

use crate::ports::Ports;
use rest_machine::Settling;
use std::marker::Model;
use tardis_base::{NO_MEMORY, NoMemory, ReplyBuf};

/// Requests that a hub asks its machine itself, as actor 0, in this order. The replies go to nobody.
///
/// They are asked as soon as `after` replies were given to connections, or to what was asked for a peer, that begin with one of
/// `codes`; the reply that memory was wanting never counts. An upkeep pays off `pays` of them, or all where they are fewer. Where one
/// turn gave so many that an upkeep is due still, the next one is made before the edge is asked again; what remains stays counted. So
/// with `pays` as `after` there is one for each so many, and with a `pays` that is never reached one at most between two turns.
///
/// Where the last reply of an upkeep is `full`, there may be more to do: then they are asked again after the next turn of the
/// edge, so that connections are served in between, and so on until that reply is another one. An upkeep that comes so pays
/// off as much.
///
/// Where the last reply is `idle`, nothing could be done, which may have cost much: then the next upkeep is made only as soon as
/// `later` replies were given, in place of `after`. Meanwhile what was counted stays counted. Where `idle` and `full` are the same
/// bytes, that reply says both: the requests are asked again after the next turn, as where there may be more to do.
///
/// Where the last reply is `held`, there is something to do, which is somebody else's for now. The next upkeep is due as behind `idle`.
/// A wait runs from then on. As often as it has lasted `wait` milliseconds more, an upkeep is due, and from then on the next of `late` is
/// asked in place of the last request; the last of `late` stays. What is done meanwhile without a late request doesn't end the wait: behind
/// `full` it goes on. Once a late request was answered `full`, it is asked again until there is nothing more to do, and then the wait is
/// over. So it is behind any other reply.
///
/// Only the offers of peers tell the time, so without peers no time passes. The clock shows the latest time that was told; an earlier one
/// changes nothing. Bytes that the machine never replies make no use of `idle`, `held` or `full`: an empty reply, for one, where each of its
/// replies begins with a code. With such a `held`, with an empty `late` and with `u64::MAX` as `soon` the time makes no difference.
#[derive(Clone, Copy)]
pub struct Upkeep<'a> {
    /// The first bytes of the replies that count.
    pub codes: &'a [u8],
    /// From 1 on.
    pub after: u32,
    pub pays: u32,
    pub requests: &'a [&'a [u8]],
    /// The reply to the last request that says that there may be more to do.
    pub full: &'a [u8],
    /// The reply to the last request that says that nothing could be done.
    pub idle: &'a [u8],
    /// The reply to the last request that says that there is something to do, which is somebody else's for now.
    pub held: &'a [u8],
    /// From 1 on.
    pub later: u32,
    /// In milliseconds, since the newest upkeep was made: once they have passed `after` replies are enough behind `idle` and `held` too.
    pub soon: u64,
    /// What is asked in place of the last request once `held` has lasted 1, 2, .. waits.
    pub late: &'a [&'a [u8]],
    /// In milliseconds, from 1 on.
    pub wait: u64,
}

/// What the last reply of an upkeep says.
#[derive(Clone, Copy)]
pub(crate) struct LastReply {
    /// There may be more to do.
    pub is_full: bool,
    /// Nothing could be done.
    pub is_idle: bool,
    /// What there is to do is somebody else's for now.
    pub is_held: bool,
}

impl LastReply {
    /// No reply came.
    fn none() -> LastReply
        ensures { result ≡ nothing_said }
    {
        LastReply {
            is_full: false,
            is_idle: false,
            is_held: false,
        }
    }

    /// Whether nothing was done.
    fn puts_off(self) -> bool
        ensures { result ≡ puts_off self }
    {
        self.is_idle || self.is_held
    }
}

/// How far an upkeep is due: how many replies that count aren't paid off; what the last reply of the newest one says; and whether the edge
/// had a turn since one that may have left more. And in milliseconds of the edge's clock: what it shows, what it showed when the newest
/// upkeep was made, and since when a wait runs, if one does; with how many waits had passed when the newest was asked. It is seen as these,
/// with the rule of the upkeep.
#[derive(Drop)]
pub(crate) struct Tally<'a> {
    upkeep: Option<Upkeep<'a>>,
    count: u64,
    last: LastReply,
    backlog: bool,
    clock: u64,
    made: u64,
    runs: bool,
    since: u64,
    waited: usize,
}

impl<'a> Model for Tally<'a> {
    ghost use Rattle.std.specs.Prelude.{◌≡◌, ◌<◌, option_map, IfNone, IfSome};
    ghost use Rattle.hub.specs.Upkeeps.{rule_of, TallyState};

    ghost Value = { TallyState };

    ghost view = { λ t. record { rule = option_map rule_of t.upkeep; count = t.count; last = t.last; backlog = t.backlog; clock = t.clock; made = t.made; runs = t.runs; since = t.since; waited = t.waited } };

    ghost invariant = { λ t. IfNone t.upkeep (t.count ≡ 0) × IfSome t.upkeep (λ u. 0 < u.wait) };
}

impl<'a> Tally<'a> {
    /// Nothing was counted, and no upkeep was made.
    #[tactic(auto, using(crate::proofs::Serving::waits_of))]
    pub(crate) fn new(upkeep: Option<Upkeep<'a>>) -> Tally<'a>
        requires often { IfSome (option_map rule_of upkeep) (λ rule. (0 < rule.after) × (0 < rule.later) × (0 < rule.wait)) }
        ensures { result ≡ first_tally (option_map rule_of upkeep.entry) }
    {
        Tally {
            upkeep,
            count: 0,
            last: LastReply::none(),
            backlog: false,
            clock: 0,
            made: 0,
            runs: false,
            since: 0,
            waited: 0,
        }
    }

    /// Counts a reply, if it is one that counts. A count of 18,446,744,073,709,551,615 stands still.
    pub(crate) fn note(&mut self, reply: &[u8])
        ensures noted { self.old.count < 18446744073709551615 → self.new ≡ noted self.old (reply.now ∷ []) }
        ensures most { self.new.count ≤ self.old.count + 1 }
    {
        if let Some(upkeep) = self.upkeep {
            if counts(upkeep.codes, reply) {
                self.count = self.count.saturating_add(1);
            }
        }
    }

    /// Notes the time that the edge told.
    pub(crate) fn tell_time(&mut self, now: u64)
        ensures { self.new ≡ timed self.old now }
    {
        self.clock = self.clock.max(now);
    }

    /// Notes that the edge had a turn.
    pub(crate) fn pass(&mut self)
        ensures { self.new ≡ passed self.old }
    {
        self.backlog = self.last.is_full;
    }

    /// Pays off the replies that an upkeep pays off, the last reply of which said this.
    pub(crate) fn pay(&mut self, last: LastReply)
        ensures { self.new ≡ paid self.old last }
    {
        let waited = self.waited();
        let (runs, goes_on) = (self.runs_behind(last), self.goes_on(last));
        self.waited = if goes_on { waited } else { 0 };
        self.since = if self.runs { self.since } else { self.clock };
        self.runs = runs;
        self.count = self.count.saturating_sub(u64::from(pays(self.upkeep)));
        self.last = last;
        self.backlog = false;
        self.made = self.clock;
    }

    /// How many waits have passed.
    pub(crate) fn waited(&self) -> usize
        ensures { result ≡ waited_by self.now }
    {
        if self.runs {
            waits_in(self.upkeep, self.clock.saturating_sub(self.since))
        } else {
            self.waited
        }
    }

    /// The upkeep that is due.
    pub(crate) fn due(&self) -> Option<Upkeep<'a>>
        ensures due { option_map rule_of result ≡ due_by self.now }
        ensures few { IfNone result (self.now.count ≤ 4294967295) }
    {
        match self.upkeep {
            Some(upkeep) => {
                if is_owed(self.count, wanted(upkeep, self.last))
                    || self.backlog
                    || self.is_soon(upkeep)
                    || self.is_late()
                {
                    Some(upkeep)
                } else {
                    None
                }
            }
            None => None,
        }
    }

    /// Whether a wait runs behind an upkeep whose last reply says this.
    fn runs_behind(&self, last: LastReply) -> bool
        ensures { result ≡ runs_behind self.now last }
    {
        if last.is_held {
            true
        } else {
            last.is_full && (self.runs && self.waited() == 0)
        }
    }

    /// Whether the waits that have passed still count behind an upkeep whose last reply says this.
    fn goes_on(&self, last: LastReply) -> bool
        ensures { result ≡ goes_on self.now last }
    {
        if last.is_held {
            self.runs
        } else {
            last.is_full
        }
    }

    /// Whether the newest upkeep was put off, and enough was counted since, and enough time has passed.
    fn is_soon(&self, upkeep: Upkeep<'_>) -> bool
        ensures { result ≡ is_soon (rule_of upkeep.entry) self.now }
    {
        self.last.puts_off()
            && u64::from(upkeep.after) <= self.count
            && upkeep.soon <= self.clock.saturating_sub(self.made)
    }

    /// Whether more waits have passed than when the newest upkeep was asked.
    fn is_late(&self) -> bool
        ensures { result ≡ nat_lt self.now.waited (waited_by self.now) }
    {
        self.runs && self.waited < self.waited()
    }
}

/// Whether a reply counts: it begins with one of these codes, and doesn't say that memory was wanting.
fn counts(codes: &[u8], reply: &[u8]) -> bool
    ensures { result ≡ is_counted codes.now reply.now }
{
    match reply {
        [code, ..] => reply != NO_MEMORY.as_slice() && codes.contains(code),
        [] => false,
    }
}

/// How many replies an upkeep pays off.
fn pays(upkeep: Option<Upkeep<'_>>) -> u32
    ensures { result ≡ pays_of (option_map rule_of upkeep.entry) }
{
    match upkeep {
        Some(upkeep) => upkeep.pays,
        None => 0,
    }
}

/// How many waits are in so many milliseconds, at most as many as there are late requests.
fn waits_in(upkeep: Option<Upkeep<'_>>, passed: u64) -> usize
    requires { IfSome upkeep (λ u. 0 < u.wait) }
    ensures { result ≡ waits_in (option_map rule_of upkeep.entry) passed }
{
    match upkeep {
        Some(upkeep) => at_most(passed / upkeep.wait, upkeep.late.len()),
        None => 0,
    }
}

/// So many, but no more than there are.
fn at_most(count: u64, all: usize) -> usize
    ensures { result ≡ min all count }
{
    if count < all as u64 {
        count as usize
    } else {
        all
    }
}

/// How many replies make an upkeep due, by what the newest one says.
fn wanted(upkeep: Upkeep<'_>, last: LastReply) -> u32
    ensures { result ≡ wanted (rule_of upkeep.entry) last }
{
    if last.puts_off() {
        upkeep.later
    } else {
        upkeep.after
    }
}

/// Whether as many replies as are wanted aren't paid off.
fn is_owed(count: u64, wanted: u32) -> bool
    ensures owed { result ≡ nat_le wanted count }
    ensures few { result ≡ false → count ≤ 4294967295 }
{
    u64::from(wanted) <= count
}

/// The late request after so many waits.
fn late_request<'a>(upkeep: Upkeep<'a>, waited: usize) -> Option<&'a [u8]>
    ensures { option_map (λ r. r.now) result ≡ late_of (rule_of upkeep.entry) waited }
{
    if waited == 0 {
        return None;
    }
    upkeep.late.get(waited - 1).copied()
}

/// Asks the requests of the upkeep after so many waits as actor 0, and tells the edge the replies. Answers what the last one says.
pub(crate) fn keep_up<M: Settling, P: Ports>(
    machine: &mut M,
    upkeep: Upkeep<'_>,
    waited: usize,
    ports: &mut P,
    reply: &mut ReplyBuf,
) -> LastReply
    ensures asked { (s : M.Plain) → M.stands machine.old s
        → Asked M.plain (M.stands machine.new) (asked (rule_of upkeep.entry) waited) (rule_of upkeep.entry) result (P.seen ports.old) (P.seen ports.new) s }
    ensures opening { M.opening machine.new ≡ M.opening machine.old }
{
    match late_request(upkeep, waited) {
        None => ask_each(machine, upkeep, upkeep.requests, ports, reply),
        Some(request) => {
            let before = upkeep.requests.len().saturating_sub(1);
            let _ = ask_each(machine, upkeep, &upkeep.requests[..before], ports, reply);
            ask(machine, upkeep, request, ports, reply)
        }
    }
}

/// Asks these requests as actor 0, and tells the edge the replies. Answers what the last one says.
fn ask_each<M: Settling, P: Ports>(
    machine: &mut M,
    upkeep: Upkeep<'_>,
    requests: &[&[u8]],
    ports: &mut P,
    reply: &mut ReplyBuf,
) -> LastReply
    ensures asked { (s : M.Plain) → M.stands machine.old s
        → Asked M.plain (M.stands machine.new) (map (λ r. r.now) requests.entry.now) (rule_of upkeep.entry) result (P.seen ports.old) (P.seen ports.new) s }
    ensures opening { M.opening machine.new ≡ M.opening machine.old }
{
    let mut last = LastReply::none();
    for request in requests {
        last = ask(machine, upkeep, request, ports, reply);
    }
    last
}

/// Asks one request as actor 0, and tells the edge the reply. Answers what it says.
fn ask<M: Settling, P: Ports>(
    machine: &mut M,
    upkeep: Upkeep<'_>,
    request: &[u8],
    ports: &mut P,
    reply: &mut ReplyBuf,
) -> LastReply
    ensures asked { (s : M.Plain) → M.stands machine.old s
        → Asked M.plain (M.stands machine.new) (request.now ∷ []) (rule_of upkeep.entry) result (P.seen ports.old) (P.seen ports.new) s }
    ensures opening { M.opening machine.new ≡ M.opening machine.old }
{
    match machine.act(0, request, reply) {
        Ok(()) => told(ports, reply.bytes(), upkeep),
        Err(NoMemory) => told(ports, &NO_MEMORY, upkeep),
    }
}

/// Tells the edge the reply, and answers what it says as the last one.
fn told<P: Ports>(ports: &mut P, reply: &[u8], upkeep: Upkeep<'_>) -> LastReply
    ensures says { result ≡ said (rule_of upkeep.entry) (reply.now ∷ []) }
    ensures told { Tells (P.seen ports.old) (P.seen ports.new) (NotedReply reply.now ∷ []) }
{
    ports.note_reply(reply);
    which(reply, upkeep)
}

/// What a reply says as the last one.
fn which(reply: &[u8], upkeep: Upkeep<'_>) -> LastReply
    ensures { result ≡ said (rule_of upkeep.entry) (reply.now ∷ []) }
{
    LastReply {
        is_full: reply == upkeep.full,
        is_idle: reply == upkeep.idle,
        is_held: reply == upkeep.held,
    }
}
