//! One site over the connections of an edge.

ghost use Rattle.std.specs.Prelude.{◌≡◌, ◌⊎◌, [], ◌∷◌, ◌++◌, ◌<◌, ◌≤◌, ◌+◌, ℕ, List, true, None, Some, length, map, option_map, IfOk, IfSome, OnOk, OnErr};
ghost use Rattle.wire_lives.specs.declared.life_codes.TheConstants.{BEGIN_LIFE};
ghost use Rattle.hub.specs.Connections.{slots};
ghost use Rattle.hub.specs.Settlings.{behind_doors};
ghost use Rattle.hub.specs.Upkeeps.{rule_of};
ghost use Rattle.hub.specs.Runs.{close, IsRun};
ghost use Rattle.daemon_words.specs.Daemons.{daemon_of};
ghost use Rattle.daemon_words.specs.Capacity.{IsCapacity};
ghost use Rattle.command_words.specs.Places.{IsPlace};
ghost use Rattle.tardisd_main.specs.Sites.{upkeep_rule, tidy_rule, slow_rule, joining_rule, join_request, wait_of, scope_of, begin_life, ServesPlace};

use daemon_words::{DaemonPlan, MOST_CONNECTIONS};
use hub::{End, Ports, SLOTS, Scope, Upkeep, serve};
use join_rules::join_codes;
use rest_machine::Settling;
use rest_site::{RestSite, oldest_codes};
use site_doors::AskedSite;
use std::alloc::Global;
use std::hash::RandomState;
use tardis_base::{NoMemory, ReplyBuf};
use wire_lives::life_codes;
use wire_talk::{reply_codes, request_codes};

/// The request Oldest: the edge is told what keeps states from being collected, before it is told how much is kept.
const ASK_OLDEST: [u8; 1] = [oldest_codes::OLDEST];

// words ask for as many connections as a hub has slots for, and no more
const _: () = prove!(SLOTS == MOST_CONNECTIONS as usize);

/// The request Stat, whose reply the edge is told of.
const STAT: [u8; 1] = [request_codes::STAT];

/// The request RaiseAuto.
const RAISE_AUTO: [u8; 1] = [request_codes::RAISE_AUTO];

/// The request Tidy, for 64 states.
const TIDY: [u8; 3] = [request_codes::TIDY, 0, 64];

/// The first bytes of the replies that count: Committed and Applied; Stat, which each exchange with a peer asks, so that what peers promised
/// is used though nobody commits; and refusals, so that a site that is full looks again.
const COUNTED: [u8; 4] = [
    reply_codes::COMMITTED,
    reply_codes::APPLIED,
    reply_codes::STAT,
    reply_codes::REFUSED,
];

/// The reply Tidied, of 64 states.
const FULL: [u8; 5] = [reply_codes::TIDIED, 0, 0, 0, 64];

/// The request Tidy, for 4,096 states.
const TIDY_MANY: [u8; 3] = [request_codes::TIDY, 16, 0];

/// The reply to a request to join leaves that two were joined.
const TWO_JOINED: [u8; 2] = [join_codes::JOIN, join_codes::JOINED];

/// The reply that leaves stay apart.
const LEFT_APART: [u8; 2] = [join_codes::JOIN, join_codes::LEFT];

/// The reply that other sites are to join leaves.
const FOR_OTHERS: [u8; 2] = [join_codes::JOIN, join_codes::FOR_OTHERS];

/// Serves the connections of an edge as the site at the plan's place, which opens with the root alone and then begins this life: each
/// connection is an actor, and its requests and questions are answered at its door, as `hub::serve` says. From the plan's peers it fetches as
/// often as that says. Keys are found by hashing with this seed. For each 64 replies that count the edge is told what keeps states from being
/// collected, and how much is kept. With `tidy` the floor is raised and up to 64 closed states are collected behind that, as actor 0 would ask it;
/// and where as many were collected, once more after the next turn of the edge. With rules all this is done, and two leaves are joined by
/// them, after each turn in which a reply was given that counts. Where leaves stay apart, that is done again once 64 such replies were
/// given, or one, and a second has passed. Leaves that another site is to join are joined here once it hasn't for as long as the plan
/// says, or twice as long. Without memory for the site or the buffers nothing is done. The request Oldest costs as
/// much as there are open sessions and sites.
pub fn serve_place<P: Ports>(
    alloc: Global,
    keys: RandomState,
    life: [u8; 16],
    plan: &DaemonPlan<'_>,
    ports: &mut P,
) -> Result<End, NoMemory>
    requires place { IsPlace plan.now.place }
    requires capacity { IsCapacity plan.now.capacity }
    requires few { length plan.now.peers.items ≤ 15 }
    ensures served { IfOk result (λ end. ServesPlace (daemon_of plan.now) life end (P.seen ports.old) (P.seen ports.new)) }
    ensures settled { IfOk result (λ end. end ≡ End.Unsettled → ⊥) }
    ensures nothing { OnErr result (ports.new ≡ ports.old) }
{
    match RestSite::new(alloc, keys, plan.limits(), plan.place.site) {
        Ok(site) => serve_machine(alloc, AskedSite { alloc, site }, life, plan, ports),
        Err(NoMemory) => Err(NoMemory),
    }
}

/// Serves the connections of an edge by a machine, which ends with the run. It counts no fault, so whatever it owes is settled, and all
/// it answers is told.
fn serve_machine<M: Settling, P: Ports>(
    alloc: Global,
    machine: M,
    life: [u8; 16],
    plan: &DaemonPlan<'_>,
    ports: &mut P,
) -> Result<End, NoMemory>
    requires sure { (n : ℕ) → n < slots → M.plain.is_sure (n + 1, close) ≡ true }
    requires faultless { (m : M) → M.faults m ≡ 0 }
    requires capacity { IsCapacity plan.now.capacity }
    requires few { length plan.now.peers.items ≤ 15 }
    ensures served { IfOk result (λ end. (s : M.Plain) → M.stands machine s
        → IsRun (behind_doors M.plain M.through M.is_settled M.settled) (upkeep_rule plan.now.tidy (option_map (λ word. word.now) plan.now.rules) plan.now.join_after plan.now.every) (scope_of (daemon_of plan.now)) (λ t. (m : M) × M.stands m t)
        (M.plain.step s (begin_life life)) end (P.seen ports.old) (P.seen ports.new)) }
    ensures settled { IfOk result (λ end. end ≡ End.Unsettled → ⊥) }
    ensures nothing { OnErr result (ports.new ≡ ports.old) }
{
    let mut machine = machine;
    serve_alive(alloc, &mut machine, life, plan, ports)
}

/// Has a machine begin this life, unless it has one, and serves the connections of an edge by it, with the plan's upkeep and peers.
pub(crate) fn serve_alive<M: Settling, P: Ports>(
    alloc: Global,
    machine: &mut M,
    life: [u8; 16],
    plan: &DaemonPlan<'_>,
    ports: &mut P,
) -> Result<End, NoMemory>
    requires sure { (n : ℕ) → n < slots → M.plain.is_sure (n + 1, close) ≡ true }
    requires capacity { IsCapacity plan.now.capacity }
    requires few { length plan.now.peers.items ≤ 15 }
    ensures served { IfOk result (λ end. (s : M.Plain) → M.stands machine.old s
        → IsRun (behind_doors M.plain M.through M.is_settled M.settled) (upkeep_rule plan.now.tidy (option_map (λ word. word.now) plan.now.rules) plan.now.join_after plan.now.every) (scope_of (daemon_of plan.now)) (M.stands machine.new)
        (M.plain.step s (begin_life life)) end (P.seen ports.old) (P.seen ports.new)) }
    ensures unsettled { IfOk result (λ end. end ≡ End.Unsettled → 0 < M.faults machine.new) }
    ensures stands { OnErr result ((s : M.Plain) → M.stands machine.old s → M.stands machine.new s ⊎ M.stands machine.new (M.plain.step s (begin_life life))) }
    ensures nothing { OnErr result (ports.new ≡ ports.old) }
    ensures opening { M.opening machine.new ≡ M.opening machine.old }
{
    match begin_life(alloc, machine, life) {
        Ok(()) => match plan.rules {
            Some(rules) => serve_ruled(alloc, machine, rules, plan, ports),
            None => serve(alloc, machine, ports, upkeep_of(plan.tidy), scope_of(plan)),
        },
        Err(NoMemory) => Err(NoMemory),
    }
}

/// Serves the connections of an edge by a machine, with the plan's upkeep and peers, and joins leaves by these rules.
fn serve_ruled<M: Settling, P: Ports>(
    alloc: Global,
    machine: &mut M,
    rules: &str,
    plan: &DaemonPlan<'_>,
    ports: &mut P,
) -> Result<End, NoMemory>
    requires sure { (n : ℕ) → n < slots → M.plain.is_sure (n + 1, close) ≡ true }
    requires capacity { IsCapacity plan.now.capacity }
    requires few { length plan.now.peers.items ≤ 15 }
    ensures served { IfOk result (λ end. (s : M.Plain) → M.stands machine.old s
        → IsRun (behind_doors M.plain M.through M.is_settled M.settled) (upkeep_rule plan.now.tidy (Some rules.now) plan.now.join_after plan.now.every) (scope_of (daemon_of plan.now))
        (M.stands machine.new) s end (P.seen ports.old) (P.seen ports.new)) }
    ensures unsettled { IfOk result (λ end. end ≡ End.Unsettled → 0 < M.faults machine.new) }
    ensures stands { OnErr result ((s : M.Plain) → M.stands machine.old s → M.stands machine.new s) }
    ensures nothing { OnErr result (ports.new ≡ ports.old) }
    ensures opening { M.opening machine.new ≡ M.opening machine.old }
{
    let join = join_request(alloc, 0, rules)?;
    let second = join_request(alloc, 1, rules)?;
    let last = join_request(alloc, 2, rules)?;
    if plan.tidy {
        let requests: [&[u8]; 5] = [&ASK_OLDEST, &STAT, &RAISE_AUTO, &TIDY_MANY, join.as_slice()];
        let late: [&[u8]; 2] = [second.as_slice(), last.as_slice()];
        let upkeep = join_upkeep(&requests, &late, plan.join_after, plan.every);
        serve(alloc, machine, ports, Some(upkeep), scope_of(plan))
    } else {
        let requests: [&[u8]; 3] = [&ASK_OLDEST, &STAT, join.as_slice()];
        let late: [&[u8]; 2] = [second.as_slice(), last.as_slice()];
        let upkeep = join_upkeep(&requests, &late, plan.join_after, plan.every);
        serve(alloc, machine, ports, Some(upkeep), scope_of(plan))
    }
}

/// The upkeep that asks these, in slices where the last reply is this one.
fn slow_upkeep<'a>(requests: &'a [&'a [u8]], full: &'a [u8]) -> Upkeep<'a>
    ensures { rule_of result ≡ slow_rule (map (λ r. r.now) requests.entry.now) full.entry.now }
{
    Upkeep {
        codes: &COUNTED,
        after: 64,
        pays: 64,
        requests,
        full,
        idle: &[],
        later: 64,
        held: &[],
        soon: u64::MAX,
        late: &[],
        wait: 1,
    }
}

/// The upkeep of a site that joins leaves, which asks these, and the late ones in place of the last where other sites don't join what
/// they are to join for so many seconds.
fn join_upkeep<'a>(
    requests: &'a [&'a [u8]],
    late: &'a [&'a [u8]],
    join_after: u32,
    every: u32,
) -> Upkeep<'a>
    ensures rule { rule_of result ≡ joining_rule (map (λ r. r.now) requests.entry.now) (map (λ r. r.now) late.entry.now) join_after every }
    ensures often { (0 < (rule_of result).after) × (0 < (rule_of result).later) × (0 < (rule_of result).wait) }
{
    Upkeep {
        codes: &COUNTED,
        after: 1,
        pays: u32::MAX,
        requests,
        full: &TWO_JOINED,
        idle: &LEFT_APART,
        later: 64,
        held: &FOR_OTHERS,
        soon: 1_000,
        late,
        wait: wait_of(join_after, every),
    }
}

/// For how many milliseconds leaves are left to another site: for so many seconds, and for two pauses between exchanges at least, within
/// which a join that was made comes.
fn wait_of(join_after: u32, every: u32) -> u64
    ensures wait { result ≡ wait_of join_after every }
{
    let seconds = u64::from(join_after).max(2 * u64::from(every));
    (1_000 * seconds).max(1)
}

/// The request to join leaves by these rules, with this patience: a wait more for each.
fn join_request(alloc: Global, patience: u8, rules: &str) -> Result<Vec<u8>, NoMemory>
    ensures { IfOk result (λ request. request.items ≡ join_request patience rules.now) }
{
    let mut request = Vec::new(alloc);
    request.push(join_codes::JOIN)?;
    request.push(patience)?;
    request.extend_from_slice(rules.as_bytes())?;
    Ok(request)
}

/// Has a machine begin this life, unless it has one.
fn begin_life<M: Settling>(alloc: Global, machine: &mut M, life: [u8; 16]) -> Result<(), NoMemory>
    ensures begun { OnOk result ((s : M.Plain) → M.stands machine.old s → M.stands machine.new (M.plain.step s (begin_life life))) }
    ensures same { OnErr result ((s : M.Plain) → M.stands machine.old s → M.stands machine.new s) }
    ensures opening { M.opening machine.new ≡ M.opening machine.old }
{
    let mut reply = ReplyBuf::new(alloc)?;
    machine.act(0, &life_request(life), &mut reply)
}

/// The request to begin a life.
fn life_request(life: [u8; 16]) -> [u8; 17]
    ensures { result ≡ BEGIN_LIFE ∷ life }
{
    let mut request = [life_codes::BEGIN_LIFE; 17];
    request[1..].copy_from_slice(&life);
    request
}

/// For how many connections a hub has slots, from how many peers it fetches, and how often.
fn scope_of(plan: &DaemonPlan<'_>) -> Scope
    requires few { length plan.now.peers.items ≤ 15 }
    ensures { result ≡ scope_of (daemon_of plan.now) }
{
    Scope {
        connections: plan.capacity.connections,
        peers: plan.peers.len() as u8,
        seconds: plan.every,
    }
}

/// The upkeep of a site without rules.
fn upkeep_of(tidy: bool) -> Option<Upkeep<'static>>
    ensures rule { option_map rule_of result ≡ Some (tidy_rule tidy) }
    ensures often { IfSome (option_map rule_of result) (λ rule. (0 < rule.after) × (0 < rule.later) × (0 < rule.wait)) }
{
    if tidy {
        Some(slow_upkeep(&[&ASK_OLDEST, &STAT, &RAISE_AUTO, &TIDY], &FULL))
    } else {
        Some(slow_upkeep(&[&ASK_OLDEST, &STAT], &[]))
    }
}
