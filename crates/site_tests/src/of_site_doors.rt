//! Requests and questions through the doors of a site.

use crate::merge_rows::BRANCHED;
use crate::of_limits::{SIXTEEN_SITES, id_behind};
use crate::sites::{LIMITS, keys};
use crate::talks::{Row, Talk, copied, put};
use rest_machine::Settling;
use rest_site::RestSite;
use site_doors::{AskedSite, FOR_ALL, FOR_CLIENTS, FOR_PEERS};
use std::alloc::Global;
use std::hash::RandomState;
use std::process::Abort;
use tardis_base::{Limits, ReplyBuf};

/// After `BRANCHED`: both branches are joined and collected, below them one key is deleted, and a session reads there.
const JOINED_AND_COLLECTED: &str = "\
1 0800           0302000100000001000100000002             merge leaves => merging 1.1 1.2
1 040178000133   07                                       put x 3 => done
1 06000000       0800010000000302000100000001000100000002 commit - => committed 1.3 from 1.1 1.2
1 0c000100000003 07                                       ceiling 1.3 => done
2 0c000100000003 07                                       ceiling 1.3 => done
0 0e             0c00010000000300000001                   raise auto => raised 1.3 1
0 0f0002         0d00000002                               tidy 2 => tidied 2
1 0200           02000100000003                           begin any => begun 1.3
1 050179         07                                       del y => done
1 06010000       0800010000000401000100000003             commit ser => committed 1.4 from 1.3
1 0200           02000100000004                           begin any => begun 1.4";

/// What is told of kept states, of a collected one and of one that isn't known.
const READS_TOLD: &str = "\
1 400001000000040178               400100010000000301000133                                                 at 1.4 x => 1.3 3
1 400001000000030179               400100010000000201000135                                                 at 1.3 y => 1.2 5
1 400001000000040179               400100010000000400                                                       at 1.4 y => 1.4 deleted
1 40000100000004017a               4000                                                                     at 1.4 z => absent
1 400001000000010178               1513000100000001                                                         at 1.1 x => refused collected 1.1
1 400001000000050178               1509000100000005                                                         at 1.5 x => refused unknown 1.5
1 410001000000030000               4100000002000201780179                                                   keys 1.3 => 2 x y
1 410001000000040000               410000000100010178                                                       keys 1.4 => 1 x
1 41000100000003000178             410000000100010179                                                       keys 1.3 behind x => 1 y
1 4100010000000301780178           41000000000000                                                           keys 1.3 of x behind x => 0
1 410001000000010000               1513000100000001                                                         keys 1.1 => refused collected 1.1
1 420001000000030000               4200000002000201780001330179000135                                       scan 1.3 => 2 x 3 y 5
1 42000100000004000178             42000000000000                                                           scan 1.4 behind x => 0
1 420001000000050000               1509000100000005                                                         scan 1.5 => refused unknown 1.5
1 43000100000003                   430000000000000003020001000000010001000000020000000001000100000004010178 record 1.3 => 3 1.1 1.2 - 1.4 x
1 43000000000000                   43000000000000000000000000000000                                         record 0.0 => 0 - - - -
1 43000100000002                   1513000100000002                                                         record 1.2 => refused collected 1.2
1 44020000000000000001000000030178 440100000000000000                                                       base 0.0 1.3 x => 0.0 absent
1 44020001000000040001000000030178 44010001000000030100010000000301000133                                   base 1.4 1.3 x => 1.3 1.3 3
1 44020001000000010001000000050178 1509000100000005                                                         base 1.1 1.5 x => refused unknown 1.5";

/// What is told of the sessions and of the site, and of bytes that spell no question.
const SITE_TOLD: &str = "\
1 4500     4500010000000300000002000200010000010000000300010000000401000100000004010002000001000000030001000000020001 sessions => 1.3 2 1 2
1 45010001 450001000000030000000100010002000001000000030001000000020001                                               sessions behind 1 => 1.3 1 2
1 46       46000100010000400000001000010000000000400000000001000000000000000500000003                                 site => 1 5 3
1 4600     1501                                                                                                       => refused malformed
1 ff       1501                                                                                                       => refused malformed";

/// What a door for clients lets in and tells, and what it doesn't.
const TO_CLIENTS: &str = "\
1 030178             04000100000003000133     get x => value 1.3 3
1 0f0001             151b0f                   tidy 1 => refused unsupported 15
1 400001000000030178 400100010000000301000133 at 1.3 x => 1.3 3
1 4500               151b45                   sessions => refused unsupported 69";

/// What a door for other sites lets in and tells, and what it doesn't.
const TO_PEERS: &str = "\
1 10                 0e000000000000000500000003000000010002010000000400010000000300000001       stat => stat known 5 kept 3 ..
1 030178             151b03                                                                     get x => refused unsupported 3
1 46                 46000100010000400000001000010000000000400000000001000000000000000500000003 site => 1 5 3
1 410001000000030000 151b41                                                                     keys 1.3 => refused unsupported 65";

/// Whether these rows come out of the site through the door.
fn comes_out(
    rt: &impl Abort,
    site: &mut AskedSite,
    door: u8,
    rows: &[Row],
    out: &mut ReplyBuf,
) -> bool {
    for row in rows {
        let asked = row.asked.as_slice();
        site.act_through(door, row.actor, asked, out)
            .expect(rt, "room");
        if out.bytes() != row.told.as_slice() {
            return false;
        }
    }
    true
}

/// Whether the rows of this talk do.
fn come_out(rt: &impl Abort, site: &mut AskedSite, door: u8, talk: Talk) -> bool {
    let mut out = ReplyBuf::new(site.alloc).expect(rt, "room");
    let are_so = comes_out(rt, site, door, talk.rows(), &mut out);
    drop(out);
    drop(talk);
    are_so
}

/// A site that opens with these limits, behind its doors.
fn asked_site(rt: &impl Abort, alloc: Global, keys: RandomState, limits: Limits) -> AskedSite {
    assert!(rt; limits.valid());
    assert!(rt; 1 <= limits.sites);
    let site = RestSite::new(alloc, keys, limits, 1).expect(rt, "room");
    AskedSite { alloc, site }
}

/// Tables that are asked one after another, each through a door.
const DOORS: [(u8, &[&str]); 3] = [
    (
        FOR_ALL,
        &[BRANCHED, JOINED_AND_COLLECTED, READS_TOLD, SITE_TOLD],
    ),
    (FOR_CLIENTS, &[TO_CLIENTS]),
    (FOR_PEERS, &[TO_PEERS]),
];

#[test]
fn each_door_lets_in_and_tells_what_it_is_for(rt: HostRuntime) {
    let alloc = rt.alloc();
    let mut site = asked_site(&rt, alloc, keys(&rt), LIMITS);
    for (door, tables) in DOORS {
        assert!(rt; come_out(&rt, &mut site, door, Talk::of(&rt, alloc, tables)));
    }
    drop(site);
}

/// A site of two with room for six states.
const ROOM_FOR_SIX: Limits = Limits {
    sites: 2,
    max_kept: 6,
    ..LIMITS
};

/// Its clients' share is two states: the root, and one commit.
const UP_TO_THE_SHARE: &str = "\
1 0100         01000000000000               open => opened 0.0
1 0200         02000000000000               begin any => begun 0.0
1 040178000131 07                           put x 1 => done
1 06000000     0800010000000101000000000000 commit - => committed 1.1 from 0.0
1 0200         02000100000001               begin any => begun 1.1
1 040178000132 07                           put x 2 => done
1 06000000     151400000002                 commit - => refused full 2";

#[test]
fn a_client_commits_up_to_the_share(rt: HostRuntime) {
    let alloc = rt.alloc();
    let mut site = asked_site(&rt, alloc, keys(&rt), ROOM_FOR_SIX);
    assert!(rt;
        come_out(
            &rt,
            &mut site,
            FOR_CLIENTS,
            Talk::of(&rt, alloc, &[UP_TO_THE_SHARE])
        )
    );
    drop(site);
}

/// Before the site's life began, no door tells it, and none lets it begin.
const BEFORE_LIFE: &str = "\
1 47                                 151b47 life => refused unsupported 71
1 49000102030405060708090a0b0c0d0e0f 151b49 begin life => refused unsupported 73";

/// The life that began, which each door tells.
const LIFE_TOLD: &str = "1 47 4700010001000102030405060708090a0b0c0d0e0f life => 1 of 1, 000102..";

#[test]
fn a_life_begins_behind_the_doors_and_is_told_at_each(rt: HostRuntime) {
    let alloc = rt.alloc();
    let mut site = asked_site(&rt, alloc, keys(&rt), LIMITS);
    assert!(rt;
        come_out(
            &rt,
            &mut site,
            FOR_PEERS,
            Talk::of(&rt, alloc, &[BEFORE_LIFE])
        )
    );
    assert!(rt; begins_life(&rt, &mut site, 0, &[73, 0]));
    assert!(rt; begins_life(&rt, &mut site, 0, &[73, 0]));
    assert!(rt; begins_life(&rt, &mut site, 9, &[73, 1]));
    for (door, _) in DOORS {
        assert!(rt; come_out(&rt, &mut site, door, Talk::of(&rt, alloc, &[LIFE_TOLD])));
    }
    drop(site);
}

/// Whether this is replied where a life is to begin whose first byte is this one, and whose others are 1 to 15.
fn begins_life(rt: &impl Abort, site: &mut AskedSite, first: u8, told: &[u8]) -> bool {
    let mut out = ReplyBuf::new(site.alloc).expect(rt, "room");
    let asked = [73, first, 1, 2, 3, 4, 5, 6, 7, 8, 9, 10, 11, 12, 13, 14, 15];
    site.act(0, &asked, &mut out).expect(rt, "room");
    let is_so = out.bytes() == told;
    drop(out);
    is_so
}

/// The first of sixteen sites is given a state of the last one.
const OF_SIXTEEN: &str = "\
0 14010010000000010100000000000001017801000131 11                                                                         deliver 16.1 => applied
1 400010000000010178                           400100100000000101000131                                                   at 16.1 x => 16.1 1
1 400001000000010178                           1509000100000001                                                           at 1.1 x => refused unknown 1.1
1 43001000000001                               430000000000000001010000000000000100000000000000000000010178               record 16.1 => 1 0.0 0.0 - x
1 46                                           46000100100000400000001000010000000000400000000001000000000000000200000002 site => 1 2 2";

/// Commits 64 keys of two bytes, of which this is the first, as the state of this sequence.
fn note_block(rt: &impl Abort, talk: &mut Talk, n: u8) {
    let [a, b, c, d, e, f] = id_behind(n.saturating_sub(1));
    talk.ask(rt, &[2, 0], &[2, a, b, c, d, e, f]);
    for key in 0..64u8 {
        talk.ask(rt, &[4, 2, n, key, 0, 0], &[7]);
    }
    talk.ask(
        rt,
        &[6, 1, 0, 0],
        &[8, 0, 1, 0, 0, 0, n, 1, a, b, c, d, e, f],
    );
}

/// Puts these keys behind the head of a page.
fn put_block(rt: &impl Abort, told: &mut Vec<u8>, n: u8) {
    for key in 0..64u8 {
        put(rt, told, &[2, n, key]);
    }
}

/// A page of keys is asked for, and these blocks are told behind its head.
fn note_page(
    rt: &impl Abort,
    alloc: Global,
    talk: &mut Talk,
    asked: &[u8],
    head: &[u8],
    blocks: &[u8],
) {
    let mut told = copied(rt, alloc, head);
    for n in blocks {
        put_block(rt, &mut told, *n);
    }
    talk.ask(rt, asked, told.as_slice());
}

/// Five commits of 64 keys, and the two pages that tell these.
fn paged(rt: &impl Abort, alloc: Global) -> Talk {
    let mut talk = Talk::new(alloc);
    talk.ask(rt, &[1, 0], &[1, 0, 0, 0, 0, 0, 0]);
    for n in 1..=5u8 {
        note_block(rt, &mut talk, n);
    }
    let all = b"\x41\0\x01\0\0\0\x05\0\0";
    let behind = b"\x41\0\x01\0\0\0\x05\0\x02\x04\x3f";
    note_page(
        rt,
        alloc,
        &mut talk,
        all,
        b"\x41\0\0\x01\x40\x01\0",
        &[1, 2, 3, 4],
    );
    note_page(rt, alloc, &mut talk, behind, b"\x41\0\0\0\x40\0\x40", &[5]);
    talk
}

#[test]
fn a_page_has_256_keys(rt: HostRuntime) {
    let alloc = rt.alloc();
    let mut site = asked_site(&rt, alloc, keys(&rt), LIMITS);
    assert!(rt; come_out(&rt, &mut site, FOR_CLIENTS, paged(&rt, alloc)));
    drop(site);
}

#[test]
fn a_site_of_sixteen_is_told(rt: HostRuntime) {
    let alloc = rt.alloc();
    let mut site = asked_site(&rt, alloc, keys(&rt), SIXTEEN_SITES);
    assert!(rt; come_out(&rt, &mut site, FOR_ALL, Talk::of(&rt, alloc, &[OF_SIXTEEN])));
    drop(site);
}
