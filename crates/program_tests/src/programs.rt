//! A program over devices in memory, by its arguments.

use crate::devices::{Streams, no_peer, nobody, streams_over};
use session_core::SiteCore;
use std::alloc::Global;
use std::env::Args;
use std::hash::RandomState;
use std::process::Abort;
use std::random::RandomSource;
use std::sync::Wait;
use std::thread::Threads;
use tardis_io::{Dial, Gate, Status};
use tardis_main::carry_out;

/// How a program ended, and what it wrote.
#[derive(Drop)]
pub(crate) struct Ran {
    pub(crate) status: Status,
    pub(crate) written: Vec<u8>,
}

/// What a program comes to that ended so over these streams.
pub(crate) fn ended(rt: &impl Abort, alloc: Global, status: Status, streams: Streams) -> Ran {
    let written = Vec::from_slice(alloc, streams.output.bytes()).expect(rt, "room");
    drop(streams);
    Ran { status, written }
}

/// Whether a program ended so, and wrote this.
pub(crate) fn comes_to(ran: Ran, status: Status, written: &[u8]) -> bool {
    let is_right = ran.status == status && ran.written.as_slice() == written;
    drop(ran);
    is_right
}

/// A seed of hashing.
pub(crate) fn keys<R: RandomSource + Abort>(rt: &R) -> RandomState {
    RandomState::new(rt).expect(rt, "random bytes")
}

fn push_word(rt: &impl Abort, alloc: Global, words: &mut Vec<String>, word: &str) {
    let word = String::from_str(alloc, word).expect(rt, "room");
    words.push(word).expect(rt, "room");
}

/// Puts the words of a line behind these.
fn push_words(rt: &impl Abort, alloc: Global, words: &mut Vec<String>, line: &str) {
    for word in line.split_whitespace() {
        push_word(rt, alloc, words, word);
    }
}

/// The words of a line.
pub(crate) fn words_of(rt: &impl Abort, alloc: Global, line: &str) -> Vec<String> {
    let mut words = Vec::new(alloc);
    push_words(rt, alloc, &mut words, line);
    words
}

/// A program's arguments: its name, and the words of a line.
fn args_of(rt: &impl Abort, alloc: Global, line: &str) -> Args {
    let mut args = Vec::new(alloc);
    push_word(rt, alloc, &mut args, "tardis");
    push_words(rt, alloc, &mut args, line);
    args.into_iter()
}

/// Carries out the arguments.
fn carried_out<G: Gate, D: Dial + Send, R: Threads + Wait + Sync>(
    rt: &R,
    alloc: Global,
    keys: RandomState,
    args: Args,
    streams: &mut Streams,
    gate: &mut G,
    dial: &mut D,
) -> Status {
    carry_out::<SiteCore, _, _, _, _, _, _>(
        alloc,
        rt,
        keys,
        args,
        &mut streams.input,
        &mut streams.output,
        gate,
        dial,
        &mut streams.store,
    )
}

/// How a program with the words of this line ends, where nobody is at its gate and there is no peer.
fn status_of<R: RandomSource + Abort + Threads + Wait + Sync>(
    rt: &R,
    alloc: Global,
    line: &str,
    streams: &mut Streams,
) -> Status {
    let args = args_of(rt, alloc, line);
    let mut gate = nobody(rt, alloc);
    let mut dial = no_peer(rt, alloc);
    let status = carried_out(rt, alloc, keys(rt), args, streams, &mut gate, &mut dial);
    drop(gate);
    drop(dial);
    status
}

/// What it comes to over this input, where a take or a give moves at most so many bytes, and these takes of the input and
/// gives of the output fail.
pub(crate) fn run_failing<R: RandomSource + Abort + Threads + Wait + Sync>(
    rt: &R,
    alloc: Global,
    line: &str,
    input: &[u8],
    piece: u32,
    takes: &[u64],
    gives: &[u64],
) -> Ran {
    let mut streams = streams_over(rt, alloc, input, piece, takes, gives);
    let status = status_of(rt, alloc, line, &mut streams);
    ended(rt, alloc, status, streams)
}

/// The same in pieces of 9 bytes, where no call fails.
pub(crate) fn run_line<R: RandomSource + Abort + Threads + Wait + Sync>(
    rt: &R,
    alloc: Global,
    line: &str,
    input: &[u8],
) -> Ran {
    run_failing(rt, alloc, line, input, 9, &[], &[])
}
