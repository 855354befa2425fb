//! What lasted is taken back by a site in memory: a row of states, and what stands behind it.

use crate::sites::{LIMITS, keys};
use crate::talks::{Row, Talk, bytes_of};
use rest_machine::{Resting, Shortening};
use rest_site::RestSite;
use std::alloc::Global;
use std::hash::RandomState;
use std::process::Abort;
use tardis_base::{Machine, ReplyBuf};

/// A row of three states of the only site.
const ROW: &str = "05000100000003";

/// A fourth state, below the last of them, which writes x.
const FOURTH: &str = "010001000000040100010000000301017801000131";

/// What the site answers behind both: of the row its last state is kept, where the floor is, of which nothing was promised.
const BEHIND: &str = "\
1 10             0e000000000000000500000002000000010000010000000400010000000300000000 stat => stat known 5 kept 2 leaves 1 sessions 0 sites 1 4:1.3:0
1 11000100000002 1513000100000002             show 1.2 => refused collected 1.2
1 0100           01000100000003               open => opened 1.3
1 0200           02000100000004               begin any => begun 1.4
1 030178         04000100000004000131         get x => value 1.4 1
1 040178000132   07                           put x 2 => done
1 06010000       0800010000000501000100000004 commit ser => committed 1.5 from 1.4";

/// A session opens behind both, and commits nothing yet.
const OPENED: &str = "\
1 0100           01000100000003               open => opened 1.3";

/// What a site that opens takes back, and what it doesn't: a row; one of no states behind a record, and below that another record or
/// beside it; one of a second site, and one whose last byte is wanting; a promise; a row behind it; and behind a row one of more states
/// than there are numbers for.
const TAKEN: [(&str, bool); 8] = [
    ("05000100000003", true),
    (
        "01000100000001010000000000000005000100000000010001000000020100010000000100",
        true,
    ),
    (
        "01000100000001010000000000000005000100000000010001000000020100000000000000",
        false,
    ),
    ("05000200000001", false),
    ("050001000000", false),
    ("0200010000000100000000000000000000", true),
    ("020001000000010000000000000000000005000100000001", false),
    ("05000100000001050001ffffffff", false),
];

/// The life of the only site.
const LIFE: &str = "04000100112233445566778899aabbccddeeff";

/// A site that opens.
fn new_site(rt: &impl Abort, alloc: Global, keys: RandomState) -> RestSite {
    assert!(rt; LIMITS.valid());
    RestSite::new(alloc, keys, LIMITS, 1).expect(rt, "room")
}

/// Whether the site takes back what these digits spell.
fn takes(rt: &impl Abort, alloc: Global, site: &mut RestSite, digits: &str) -> bool {
    let bytes = bytes_of(rt, alloc, digits);
    site.take_back(bytes.as_slice()).expect(rt, "room")
}

/// Whether it answers these rows so.
fn answers(rt: &impl Abort, site: &mut RestSite, rows: &[Row], out: &mut ReplyBuf) -> bool {
    for row in rows {
        site.act(row.actor, row.asked.as_slice(), out)
            .expect(rt, "room");
        if out.bytes() != row.told.as_slice() {
            return false;
        }
    }
    true
}

#[test]
fn a_row_is_taken_back_and_the_site_goes_on_behind_it(rt: HostRuntime) {
    let alloc = rt.alloc();
    let mut site = new_site(&rt, alloc, keys(&rt));
    assert!(rt; takes(&rt, alloc, &mut site, ROW));
    assert!(rt; takes(&rt, alloc, &mut site, FOURTH));
    let talk = Talk::of(&rt, alloc, &[BEHIND]);
    let mut out = ReplyBuf::new(alloc).expect(&rt, "room");
    assert!(rt; answers(&rt, &mut site, talk.rows(), &mut out));
    // a session is open now
    assert!(rt; !takes(&rt, alloc, &mut site, ROW));
    drop(out);
    drop(talk);
    drop(site);
}

#[test]
fn rows_are_taken_back_where_they_fit(rt: HostRuntime) {
    let alloc = rt.alloc();
    for (digits, is_taken) in TAKEN {
        let mut site = new_site(&rt, alloc, keys(&rt));
        assert!(rt; takes(&rt, alloc, &mut site, digits) == is_taken);
        drop(site);
    }
}

#[test]
fn a_site_rests_as_one_that_took_back_the_same(rt: HostRuntime) {
    let alloc = rt.alloc();
    let mut site = new_site(&rt, alloc, keys(&rt));
    assert!(rt; takes(&rt, alloc, &mut site, ROW));
    assert!(rt; takes(&rt, alloc, &mut site, FOURTH));
    let talk = Talk::of(&rt, alloc, &[OPENED]);
    let mut out = ReplyBuf::new(alloc).expect(&rt, "room");
    assert!(rt; answers(&rt, &mut site, talk.rows(), &mut out));
    let mut other = site.reopened().expect(&rt, "room");
    assert!(rt; !site.rests_as(&other));
    assert!(rt; takes(&rt, alloc, &mut other, ROW));
    assert!(rt; takes(&rt, alloc, &mut other, FOURTH));
    assert!(rt; site.rests_as(&other));
    assert!(rt; takes(&rt, alloc, &mut other, LIFE));
    assert!(rt; !site.rests_as(&other));
    drop(other);
    drop(out);
    drop(talk);
    drop(site);
}
