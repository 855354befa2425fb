//! A floor that 256 open sessions hold.

use crate::floor_rows::{FIRST_HOLDS, LAST_HOLDS};
use crate::sites::{LIMITS, answers, keys};
use crate::talks::Talk;
use std::alloc::Global;
use std::process::Abort;

/// 256 sessions open, the last actor first, and all but the last go up.
fn held(rt: &impl Abort, alloc: Global) -> Talk {
    let mut talk = Talk::new(alloc);
    for opened in 0..256u16 {
        talk.ask_as(rt, 256 - opened, &[1, 0], &[1, 0, 0, 0, 0, 0, 0]);
    }
    talk.note_all(rt, FIRST_HOLDS);
    for actor in 1..256u16 {
        talk.ask_as(rt, actor, &[12, 0, 1, 0, 0, 0, 1], &[7]);
    }
    talk.note_all(rt, LAST_HOLDS);
    talk
}

#[test]
fn the_last_of_256_sessions_holds_the_floor(rt: HostRuntime) {
    let talk = held(&rt, rt.alloc());
    assert!(rt; answers(&rt, rt.alloc(), keys(&rt), LIMITS, 1, &talk));
    drop(talk);
}
