//! A site with its log, which is told shorter while the site goes on, and from which other sites start.

use crate::collection_rows::{FORK_OF_THREE, GROWN_TOGETHER};
use crate::disks::crashed;
use crate::exchange_rows::{CONSENTS, TWO_RECORDS, WAITED_NO_MORE, WAITS};
use crate::file_rows::{COLLECTED, COMMITTED, KEYS_IN_TURN};
use crate::floor_rows::{COLLECTED_CHAIN, RAISED_CHAIN};
use crate::merge_rows::{BRANCHED, JOINED};
use crate::of_steps::TALKS as STEPS;
use crate::sites::{LIMITS, keys};
use crate::talks::{Row, Talk, copied, put};
use log_groups::LogFront;
use memory_disks::MemoryDisk;
use rest_machine::{Resting, Shortening};
use rest_site::RestSite;
use site_log::{Logged, OpenedLog, Shortened, open_log};
use std::alloc::Global;
use std::hash::RandomState;
use std::process::Abort;
use tardis_base::{Limits, Machine, ReplyBuf};
use wire_talk::{reply_codes, request_codes};

/// A site with its log.
type Log = Logged<RestSite, MemoryDisk>;

/// Room for what is written to a disk.
const ROOM: u32 = 67_108_864;

/// One more than the actors that worked rows name.
const ACTORS: u16 = 10;

/// Tables of rows that the first of so many sites is asked one after another, beside those of `of_steps`.
const TALKS: [(u16, &[&str]); 7] = [
    (1, &[]),
    (1, &[COLLECTED]),
    (1, &[RAISED_CHAIN, COLLECTED_CHAIN]),
    (1, &[BRANCHED, JOINED, GROWN_TOGETHER]),
    (1, &[FORK_OF_THREE]),
    (2, &[TWO_RECORDS, CONSENTS]),
    (16, &[COMMITTED]),
];

/// A site of so many that opens.
fn new_site(rt: &impl Abort, alloc: Global, keys: RandomState, limits: Limits) -> RestSite {
    assert!(rt; limits.valid());
    RestSite::new(alloc, keys, limits, 1).expect(rt, "room")
}

/// What the log of such a site says first.
fn front_of(limits: &Limits) -> LogFront {
    LogFront {
        sites: limits.sites,
        own: 1,
        max_kept: limits.max_kept,
        max_path: limits.max_path,
        max_sessions: limits.max_sessions,
        life: [7; 16],
    }
}

/// The log of a site on a disk, where it opens.
fn opened(alloc: Global, site: RestSite, disk: MemoryDisk, limits: &Limits) -> Option<Log> {
    match open_log(alloc, site, disk, &front_of(limits)) {
        Ok(opened) => {
            let OpenedLog { log, .. } = opened;
            Some(log)
        }
        Err(_) => None,
    }
}

/// Asks a site with its log what the row asks, and one that never stops: whether both answer as the row says, and all is settled.
fn is_answered(
    rt: &impl Abort,
    log: &mut Log,
    still: &mut RestSite,
    row: &Row,
    out: &mut ReplyBuf,
) -> bool {
    let asked = row.asked.as_slice();
    log.answer(row.actor, asked, out).expect(rt, "room");
    let is_told = out.bytes() == row.told.as_slice();
    still.act(row.actor, asked, out).expect(rt, "room");
    is_told && out.bytes() == row.told.as_slice() && log.settle_now().is_ok()
}

/// Tells a log shorter, if it can be: whether it was done; nothing else may come of it but that it couldn't be.
fn is_shortened(rt: &impl Abort, log: &mut Log) -> bool {
    match log.shorten_beyond(0) {
        Shortened::Done { before, after } => {
            assert!(rt; after < before);
            true
        }
        Shortened::NoShorter => false,
        _ => panic!(rt; "a log that can't go on"),
    }
}

/// What a site is asked for all news, by one that has nothing of so many sites.
fn pull(rt: &impl Abort, alloc: Global, sites: u16) -> Vec<u8> {
    let mut asked = Vec::new(alloc);
    put(
        rt,
        &mut asked,
        &[request_codes::PULL, sites.to_be_bytes()[1]],
    );
    for _ in 0..sites {
        put(rt, &mut asked, &[0; 4]);
    }
    asked
}

/// Whether two sites answer this alike, into `out`.
fn answer_alike(
    rt: &impl Abort,
    alloc: Global,
    one: &mut RestSite,
    other: &mut Log,
    actor: u16,
    asked: &[u8],
    out: &mut ReplyBuf,
) -> bool {
    let mut also = ReplyBuf::new(alloc).expect(rt, "room");
    one.act(actor, asked, &mut also).expect(rt, "room");
    other.answer(actor, asked, out).expect(rt, "room");
    out.bytes() == also.bytes()
}

/// A site that starts from what a crash leaves of the disk.
fn started(
    rt: &impl Abort,
    alloc: Global,
    keys: RandomState,
    limits: Limits,
    disk: MemoryDisk,
) -> Log {
    let site = new_site(rt, alloc, keys, limits);
    opened(alloc, site, crashed(rt, disk, 0), &limits).expect(rt, "a log")
}

/// Whether a site that started tells the same leaves, the same counts and the same news as the one that never stopped.
fn tells_alike(
    rt: &impl Abort,
    alloc: Global,
    sites: u16,
    again: &mut Log,
    still: &mut RestSite,
) -> bool {
    let mut out = ReplyBuf::new(alloc).expect(rt, "room");
    let all = pull(rt, alloc, sites);
    answer_alike(
        rt,
        alloc,
        still,
        again,
        0,
        &[request_codes::LEAVES],
        &mut out,
    ) && answer_alike(rt, alloc, still, again, 0, &[request_codes::STAT], &mut out)
        && answer_alike(rt, alloc, still, again, 0, all.as_slice(), &mut out)
}

/// Ends the actor's session of the site that never stopped: whether there was one.
fn had_session(rt: &impl Abort, still: &mut RestSite, actor: u16, out: &mut ReplyBuf) -> bool {
    still
        .act(actor, &[request_codes::CLOSE], out)
        .expect(rt, "room");
    out.bytes() == [reply_codes::CLOSED].as_slice()
}

/// Opens the actor's session anew in both, where the site that never stopped had one: whether both answer alike.
fn opens_anew(
    rt: &impl Abort,
    alloc: Global,
    again: &mut Log,
    still: &mut RestSite,
    actor: u16,
    out: &mut ReplyBuf,
) -> bool {
    if had_session(rt, still, actor, out) {
        answer_alike(
            rt,
            alloc,
            still,
            again,
            actor,
            &[request_codes::OPEN, 1],
            out,
        )
    } else {
        true
    }
}

/// Ends each session of the site that never stopped, as a start does with all of them, and opens it anew in both: whether both
/// answer alike.
fn open_anew(rt: &impl Abort, alloc: Global, again: &mut Log, still: &mut RestSite) -> bool {
    let mut out = ReplyBuf::new(alloc).expect(rt, "room");
    let mut are_alike = true;
    for actor in 1..ACTORS {
        are_alike = are_alike && opens_anew(rt, alloc, again, still, actor, &mut out);
    }
    drop(out);
    are_alike
}

/// How many of the replies of a site that started are as the rows say, which the one that never stopped answers as it does.
fn as_before(
    rt: &impl Abort,
    alloc: Global,
    again: &mut Log,
    still: &mut RestSite,
    rows: &[Row],
) -> u32 {
    let mut out = ReplyBuf::new(alloc).expect(rt, "room");
    let mut times = 0_u32;
    for row in rows {
        let asked = row.asked.as_slice();
        assert!(rt; answer_alike(rt, alloc, still, again, row.actor, asked, &mut out));
        if out.bytes() == row.told.as_slice() {
            times = times.saturating_add(1);
        }
    }
    times
}

/// The rows behind which a log is told shorter: those from a place on, before another one.
#[derive(Clone, Copy)]
struct Told {
    from: usize,
    until: usize,
}

/// How many times the log of a site was told shorter behind these rows: both sites answer as the rows say.
fn times_shortened(
    rt: &impl Abort,
    alloc: Global,
    log: &mut Log,
    still: &mut RestSite,
    rows: &[Row],
    told: Told,
) -> u32 {
    let mut out = ReplyBuf::new(alloc).expect(rt, "room");
    let mut times = 0_u32;
    for (place, row) in rows.iter().enumerate() {
        assert!(rt; is_answered(rt, log, still, row, &mut out));
        if told.from <= place && place < told.until && is_shortened(rt, log) {
            times = times.saturating_add(1);
        }
    }
    times
}

/// How many times something was seen: that a log was told shorter, and that a site that started from one replied as a row says.
#[derive(Clone, Copy)]
struct Seen {
    shortened: u32,
    as_before: u32,
}

impl Seen {
    /// Adds what else was seen.
    fn note(&mut self, more: Seen) {
        self.shortened = self.shortened.saturating_add(more.shortened);
        self.as_before = self.as_before.saturating_add(more.as_before);
    }
}

/// What a crash may find: the disk of a site whose log was told shorter so many times.
#[derive(Drop)]
struct Left {
    disk: MemoryDisk,
    shortened: u32,
}

/// Asks a site with its log, and one that never stops, what these rows ask, and tells the log shorter behind some of them.
fn left_by(
    rt: &impl Abort,
    alloc: Global,
    keys: RandomState,
    limits: Limits,
    still: &mut RestSite,
    rows: &[Row],
    told: Told,
) -> Left {
    let disk = MemoryDisk::new(alloc, &[], ROOM, &[]).expect(rt, "room");
    let site = new_site(rt, alloc, keys, limits);
    let mut log = opened(alloc, site, disk, &limits).expect(rt, "a log");
    let shortened = times_shortened(rt, alloc, &mut log, still, rows, told);
    Left {
        disk: log.close(),
        shortened,
    }
}

/// A site that started rests as the one that never stopped, and answers these rows as that one does, once the sessions of both were
/// opened anew: how many of its replies are as the rows say.
fn goes_on_alike(
    rt: &impl Abort,
    alloc: Global,
    sites: u16,
    again: &mut Log,
    still: &mut RestSite,
    rows: &[Row],
) -> u32 {
    assert!(rt; again.machine().rests_as(still));
    assert!(rt; open_anew(rt, alloc, again, still));
    assert!(rt; tells_alike(rt, alloc, sites, again, still));
    let times = as_before(rt, alloc, again, still, rows);
    assert!(rt; tells_alike(rt, alloc, sites, again, still));
    times
}

/// Asks a site what the rows before a place ask, tells its log shorter behind some of them, and starts a site from it, which answers
/// the rows that are left.
fn start_behind(
    rt: &impl Abort,
    alloc: Global,
    keys: RandomState,
    limits: Limits,
    rows: &[Row],
    place: usize,
    told: Told,
) -> Seen {
    let (before, rest) = rows.split_at_checked(place).expect(rt, "rows");
    let mut still = new_site(rt, alloc, keys, limits);
    let Left { disk, shortened } = left_by(rt, alloc, keys, limits, &mut still, before, told);
    let mut again = started(rt, alloc, keys, limits, disk);
    let as_before = goes_on_alike(rt, alloc, limits.sites, &mut again, &mut still, rest);
    drop(again);
    drop(still);
    Seen {
        shortened,
        as_before,
    }
}

/// The row at a place alone.
fn only(place: usize) -> Told {
    Told {
        from: place,
        until: place.saturating_add(1),
    }
}

/// Starts a site behind each of these rows, from a log that was told shorter there.
fn start_behind_each(
    rt: &impl Abort,
    alloc: Global,
    keys: RandomState,
    limits: Limits,
    rows: &[Row],
    seen: &mut Seen,
) {
    for last in 0..rows.len() {
        let told = only(last);
        seen.note(start_behind(rt, alloc, keys, limits, rows, told.until, told));
    }
}

/// Starts a site behind each of these rows, from a log that was told shorter half way there, and went on.
fn start_further_on(
    rt: &impl Abort,
    alloc: Global,
    keys: RandomState,
    limits: Limits,
    rows: &[Row],
    seen: &mut Seen,
) {
    for last in 0..rows.len() {
        let place = last.saturating_add(1);
        let told = only(last / 2);
        seen.note(start_behind(rt, alloc, keys, limits, rows, place, told));
    }
}

/// Starts a site behind these rows, from a log that was told shorter behind each.
fn start_behind_all(
    rt: &impl Abort,
    alloc: Global,
    keys: RandomState,
    limits: Limits,
    rows: &[Row],
    seen: &mut Seen,
) {
    let place = rows.len();
    let told = Told {
        from: 0,
        until: place,
    };
    seen.note(start_behind(rt, alloc, keys, limits, rows, place, told));
}

// A start ends all sessions and transactions, so what is left of the rows is asked in sessions that were opened anew, also of the site
// that never stopped: their replies are compared, byte by byte, whatever is answered.
#[test]
fn a_site_starts_from_a_short_log_behind_each_row(rt: HostRuntime) {
    let keys = keys(&rt);
    let mut seen = Seen {
        shortened: 0,
        as_before: 0,
    };
    for tables in STEPS {
        let talk = Talk::of(&rt, rt.alloc(), tables);
        start_behind_each(&rt, rt.alloc(), keys, LIMITS, talk.rows(), &mut seen);
    }
    assert!(rt; seen.shortened >= 100 && seen.as_before >= 1_000);
}

#[test]
fn a_site_starts_from_a_short_log_that_went_on(rt: HostRuntime) {
    let keys = keys(&rt);
    let mut seen = Seen {
        shortened: 0,
        as_before: 0,
    };
    for (sites, tables) in TALKS {
        let limits = Limits { sites, ..LIMITS };
        let talk = Talk::of(&rt, rt.alloc(), tables);
        start_behind_each(&rt, rt.alloc(), keys, limits, talk.rows(), &mut seen);
        start_further_on(&rt, rt.alloc(), keys, limits, talk.rows(), &mut seen);
        start_behind_all(&rt, rt.alloc(), keys, limits, talk.rows(), &mut seen);
    }
    assert!(rt; seen.shortened >= 100 && seen.as_before >= 1_000);
}

#[test]
fn a_log_of_more_keys_than_states_may_be_kept_is_told_shorter(rt: HostRuntime) {
    let alloc = rt.alloc();
    let keys = keys(&rt);
    let limits = Limits {
        max_kept: 2,
        ..LIMITS
    };
    let talk = Talk::of(&rt, alloc, &[KEYS_IN_TURN]);
    let rows = talk.rows();
    let last = only(rows.len().saturating_sub(1));
    let seen = start_behind(&rt, alloc, keys, limits, rows, last.until, last);
    assert!(rt; seen.shortened == 1);
}

/// Asks a site with its log what these rows ask: whether it answers as they say.
fn is_talked(rt: &impl Abort, alloc: Global, log: &mut Log, table: &str) -> bool {
    let mut out = ReplyBuf::new(alloc).expect(rt, "room");
    let talk = Talk::of(rt, alloc, &[table]);
    for row in talk.rows() {
        log.answer(row.actor, row.asked.as_slice(), &mut out)
            .expect(rt, "room");
        if out.bytes() != row.told.as_slice() {
            return false;
        }
    }
    log.settle_now().is_ok()
}

/// What a crash leaves where early records wait.
fn left_waiting(rt: &impl Abort, alloc: Global, keys: RandomState, limits: Limits) -> MemoryDisk {
    let disk = MemoryDisk::new(alloc, &[], ROOM, &[]).expect(rt, "room");
    let site = new_site(rt, alloc, keys, limits);
    let mut log = opened(alloc, site, disk, &limits).expect(rt, "a log");
    assert!(rt; is_talked(rt, alloc, &mut log, WAITS));
    log.close()
}

#[test]
fn what_waits_is_gone_after_a_start(rt: HostRuntime) {
    let keys = keys(&rt);
    let limits = Limits { sites: 2, ..LIMITS };
    let left = left_waiting(&rt, rt.alloc(), keys, limits);
    let mut again = started(&rt, rt.alloc(), keys, limits, left);
    assert!(rt; is_talked(&rt, rt.alloc(), &mut again, WAITED_NO_MORE));
    drop(again);
}

/// What a site is asked, by actor 1: it writes this value, whose length has these bytes, to a key, and commits.
fn write(rt: &impl Abort, alloc: Global, log: &mut Log, length: [u8; 2], value: &[u8]) {
    let mut asked = Vec::new(alloc);
    put(rt, &mut asked, &[request_codes::PUT, 1, 97]);
    put(rt, &mut asked, &length);
    put(rt, &mut asked, value);
    let mut out = ReplyBuf::new(alloc).expect(rt, "room");
    log.answer(1, &[request_codes::BEGIN, 0], &mut out)
        .expect(rt, "room");
    log.answer(1, asked.as_slice(), &mut out).expect(rt, "room");
    log.answer(1, &[request_codes::COMMIT, 1, 0, 0], &mut out)
        .expect(rt, "room");
}

/// The text of a log that was told shorter: a long value was written, and another one in its place, and all is collected that may be.
fn short_text(rt: &impl Abort, alloc: Global, keys: RandomState) -> Vec<u8> {
    let disk = MemoryDisk::new(alloc, &[], ROOM, &[]).expect(rt, "room");
    let site = new_site(rt, alloc, keys, LIMITS);
    let mut log = opened(alloc, site, disk, &LIMITS).expect(rt, "a log");
    let mut out = ReplyBuf::new(alloc).expect(rt, "room");
    log.answer(1, &[request_codes::OPEN, 1], &mut out)
        .expect(rt, "room");
    write(rt, alloc, &mut log, [8, 52], &[118; 2_100]);
    write(rt, alloc, &mut log, [0, 1], &[119]);
    log.answer(0, &[request_codes::RAISE_AUTO], &mut out)
        .expect(rt, "room");
    log.answer(0, &[request_codes::TIDY, 0, 255], &mut out)
        .expect(rt, "room");
    assert!(rt; log.settle_now().is_ok());
    assert!(rt; is_shortened(rt, &mut log));
    let disk = log.close();
    copied(rt, alloc, disk.bytes())
}

/// How many entries end in a log's text.
fn entries_in(text: &[u8]) -> usize {
    let mut ends = 0_usize;
    for byte in text {
        if *byte == 247 {
            ends = ends.saturating_add(1);
        }
    }
    ends
}

/// How many bytes of a log's text stand before its last entries, so many.
fn before_last(text: &[u8], entries: usize) -> usize {
    let mut left = entries_in(text).saturating_sub(entries);
    for (place, byte) in text.iter().enumerate() {
        if left == 0 {
            return place;
        }
        if *byte == 247 {
            left = left.saturating_sub(1);
        }
    }
    text.len()
}

/// What comes of a log on the disk: whether it is refused, and else whether its end counts as torn.
fn is_taken(alloc: Global, site: RestSite, disk: MemoryDisk) -> Option<bool> {
    match open_log(alloc, site, disk, &front_of(&LIMITS)) {
        Ok(opened) => {
            let OpenedLog { log, found } = opened;
            drop(log);
            Some(found.is_torn)
        }
        Err(_) => None,
    }
}

// Two groups without things stand behind a log that had 2 KiB: what is before them isn't taken for a torn end, whichever byte changed.
#[test]
fn each_byte_of_a_short_log_is_guarded(rt: HostRuntime) {
    let alloc = rt.alloc();
    let keys = keys(&rt);
    let mut text = short_text(&rt, alloc, keys);
    let guarded = before_last(text.as_slice(), 2);
    assert!(rt; guarded > 100 && guarded < text.len());
    for place in 0..text.len() {
        let byte = text[place];
        text[place] = if place % 2 == 0 { 0 } else { byte ^ 1 };
        let disk = MemoryDisk::new(alloc, text.as_slice(), ROOM, &[]).expect(&rt, "room");
        let site = new_site(&rt, alloc, keys, LIMITS);
        match is_taken(alloc, site, disk) {
            None => {}
            Some(is_torn) => assert!(rt; is_torn && place >= guarded),
        }
        text[place] = byte;
    }
}
