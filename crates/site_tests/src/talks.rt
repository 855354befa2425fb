//! Requests and the replies that they are to get.

use std::alloc::Global;
use std::process::Abort;

/// The bytes that these hexadecimal digits spell.
pub fn bytes_of(rt: &impl Abort, alloc: Global, digits: &str) -> Vec<u8> {
    hex::decode(alloc, digits).expect(rt, "hexadecimal digits")
}

/// A copy of these bytes.
pub fn copied(rt: &impl Abort, alloc: Global, bytes: &[u8]) -> Vec<u8> {
    Vec::from_slice(alloc, bytes).expect(rt, "room")
}

/// Puts more bytes behind these.
pub fn put(rt: &impl Abort, bytes: &mut Vec<u8>, more: &[u8]) {
    bytes.extend_from_slice(more).expect(rt, "room");
}

/// A worked row: an actor, the bytes of its request, and those of the reply.
#[derive(Drop)]
pub struct Row {
    pub actor: u16,
    pub asked: Vec<u8>,
    pub told: Vec<u8>,
}

/// The row that a line is.
fn row_of(rt: &impl Abort, alloc: Global, line: &str) -> Row {
    let mut words = line.split_whitespace();
    let actor = words.next().expect(rt, "an actor");
    let asked = words.next().expect(rt, "a request");
    let told = words.next().expect(rt, "a reply");
    Row {
        actor: actor.parse::<u16>().expect(rt, "a number"),
        asked: bytes_of(rt, alloc, asked),
        told: bytes_of(rt, alloc, told),
    }
}

/// Puts the frame of a body that begins with this head behind these.
pub fn put_frame(rt: &impl Abort, frames: &mut Vec<u8>, head: &[u8], body: &[u8]) {
    let length = u32::try_from(head.len().saturating_add(body.len())).unwrap_or(u32::MAX);
    put(rt, frames, &length.to_be_bytes());
    put(rt, frames, head);
    put(rt, frames, body);
}

/// Rows, one after another.
#[derive(Drop)]
pub struct Talk {
    alloc: Global,
    rows: Vec<Row>,
}

impl Talk {
    pub fn new(alloc: Global) -> Talk {
        Talk {
            alloc,
            rows: Vec::new(alloc),
        }
    }

    /// The rows of these tables.
    pub fn of(rt: &impl Abort, alloc: Global, tables: &[&str]) -> Talk {
        let mut talk = Talk::new(alloc);
        for table in tables {
            talk.note_all(rt, table);
        }
        talk
    }

    /// Puts the rows of a table behind the others.
    pub fn note_all(&mut self, rt: &impl Abort, table: &str) {
        for line in table.lines() {
            let row = row_of(rt, self.alloc, line);
            self.note(rt, row);
        }
    }

    /// Puts a row behind the others.
    fn note(&mut self, rt: &impl Abort, row: Row) {
        self.rows.push(row).expect(rt, "room");
    }

    /// Puts a request of actor 1 behind the others, and the reply that it is to get.
    pub fn ask(&mut self, rt: &impl Abort, asked: &[u8], told: &[u8]) {
        self.ask_as(rt, 1, asked, told);
    }

    /// Puts a request of an actor behind the others, and the reply that it is to get.
    pub fn ask_as(&mut self, rt: &impl Abort, actor: u16, asked: &[u8], told: &[u8]) {
        let row = Row {
            actor,
            asked: copied(rt, self.alloc, asked),
            told: copied(rt, self.alloc, told),
        };
        self.note(rt, row);
    }

    pub fn rows(&self) -> &[Row] {
        self.rows.as_slice()
    }

    /// The frames of the requests, as the connection of one actor has them.
    pub fn frames(&self, rt: &impl Abort) -> Vec<Vec<u8>> {
        let mut frames = Vec::new(self.alloc);
        for row in self.rows.as_slice() {
            let mut frame = Vec::new(self.alloc);
            put_frame(rt, &mut frame, &[], row.asked.as_slice());
            frames.push(frame).expect(rt, "room");
        }
        frames
    }

    /// The frames of the requests.
    pub fn input(&self, rt: &impl Abort) -> Vec<u8> {
        let mut frames = Vec::new(self.alloc);
        for row in self.rows.as_slice() {
            let actor = row.actor.to_be_bytes();
            put_frame(rt, &mut frames, &actor, row.asked.as_slice());
        }
        frames
    }

    /// The frames of the replies.
    pub fn output(&self, rt: &impl Abort) -> Vec<u8> {
        let mut frames = Vec::new(self.alloc);
        for row in self.rows.as_slice() {
            put_frame(rt, &mut frames, &[], row.told.as_slice());
        }
        frames
    }
}
