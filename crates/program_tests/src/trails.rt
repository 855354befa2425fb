//! What one actor has of a trail, and of the replies to it.

use std::alloc::Global;
use std::process::Abort;

/// The frames of an actor's entries, and those of the replies to them.
#[derive(Drop)]
pub(crate) struct Part {
    pub(crate) asked: Vec<u8>,
    pub(crate) told: Vec<u8>,
}

/// How many bytes the first frame has, with its length word.
fn length_of_first(bytes: &[u8]) -> usize {
    match bytes.first_chunk::<4>() {
        Some(word) => (u32::from_be_bytes(*word) as usize).saturating_add(4),
        None => 4,
    }
}

/// The first frame and what is behind it.
fn first_frame(bytes: &[u8]) -> Option<(&[u8], &[u8])> {
    bytes.split_at_checked(length_of_first(bytes))
}

/// Whether the entry is of this actor.
fn is_of(entry: &[u8], actor: u8) -> bool {
    entry.get(4) == Some(&0) && entry.get(5) == Some(&actor)
}

/// Puts an entry and the reply to it behind those of the part.
fn put(rt: &impl Abort, part: &mut Part, entry: &[u8], reply: &[u8]) {
    part.asked.extend_from_slice(entry).expect(rt, "room");
    part.told.extend_from_slice(reply).expect(rt, "room");
}

/// Puts what an actor has of a trail, and of the replies to it, into the part.
fn fill(rt: &impl Abort, part: &mut Part, trail: &[u8], replies: &[u8], actor: u8) {
    let mut entries = trail;
    let mut rest = replies;
    for _ in 0..trail.len() {
        let Some((entry, next_entries)) = first_frame(entries) else {
            return;
        };
        let Some((reply, next_rest)) = first_frame(rest) else {
            return;
        };
        if is_of(entry, actor) {
            put(rt, part, entry, reply);
        }
        entries = next_entries;
        rest = next_rest;
    }
}

/// The part of an actor in a trail and in the replies to it, which stand in the same order.
pub(crate) fn part_of(
    rt: &impl Abort,
    alloc: Global,
    trail: &[u8],
    replies: &[u8],
    actor: u8,
) -> Part {
    let mut part = Part {
        asked: Vec::new(alloc),
        told: Vec::new(alloc),
    };
    fill(rt, &mut part, trail, replies, actor);
    part
}
