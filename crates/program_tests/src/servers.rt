//! A server over a gate and a dial that are handed in, by its words.

use crate::devices::{Streams, no_peer, streams_over};
use crate::programs::{Ran, ended, keys, words_of};
use session_core::SiteCore;
use std::alloc::Global;
use std::hash::RandomState;
use std::process::Abort;
use std::random::RandomSource;
use std::sync::Wait;
use std::thread::Threads;
use tardis_io::{Dial, Gate, Status};
use tardis_main::tardis;

/// Carries out the words.
fn carried_out<G: Gate, D: Dial + Send, R: Threads + Wait + Sync>(
    rt: &R,
    alloc: Global,
    keys: RandomState,
    words: &[String],
    streams: &mut Streams,
    gate: &mut G,
    dial: &mut D,
) -> Status {
    tardis::<SiteCore, _, _, _, _, _, _>(
        alloc,
        rt,
        keys,
        words,
        &mut streams.input,
        &mut streams.output,
        gate,
        dial,
        &mut streams.store,
    )
}

/// How the words of this line end.
fn status_of<G: Gate, D: Dial + Send, R: RandomSource + Abort + Threads + Wait + Sync>(
    rt: &R,
    alloc: Global,
    line: &str,
    streams: &mut Streams,
    gate: &mut G,
    dial: &mut D,
) -> Status {
    let words = words_of(rt, alloc, line);
    let status = carried_out(rt, alloc, keys(rt), words.as_slice(), streams, gate, dial);
    drop(words);
    status
}

/// What the words of this line come to over the gate and the dial, without an input.
pub(crate) fn serve<G: Gate, D: Dial + Send, R: RandomSource + Abort + Threads + Wait + Sync>(
    rt: &R,
    alloc: Global,
    line: &str,
    gate: &mut G,
    dial: &mut D,
) -> Ran {
    let mut streams = streams_over(rt, alloc, b"", 65_536, &[], &[]);
    let status = status_of(rt, alloc, line, &mut streams, gate, dial);
    ended(rt, alloc, status, streams)
}

/// The same where there is no peer.
pub(crate) fn serve_clients<G: Gate, R: RandomSource + Abort + Threads + Wait + Sync>(
    rt: &R,
    alloc: Global,
    line: &str,
    gate: &mut G,
) -> Ran {
    let mut dial = no_peer(rt, alloc);
    let ran = serve(rt, alloc, line, gate, &mut dial);
    drop(dial);
    ran
}
