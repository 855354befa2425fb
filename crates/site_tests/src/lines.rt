//! Lines, and those that answer them.

use crate::talks::put;
use std::alloc::Global;
use std::process::Abort;

/// Lines that are asked, and those that are to answer them.
#[derive(Drop)]
pub struct Lines {
    pub asked: Vec<u8>,
    pub told: Vec<u8>,
}

impl Lines {
    pub fn new(alloc: Global) -> Lines {
        Lines {
            asked: Vec::new(alloc),
            told: Vec::new(alloc),
        }
    }

    /// Puts a line behind the others, and the one that is to answer it.
    pub fn note(&mut self, rt: &impl Abort, line: &[u8], answer: &[u8]) {
        put(rt, &mut self.asked, line);
        put(rt, &mut self.asked, b"\n");
        put(rt, &mut self.told, answer);
        put(rt, &mut self.told, b"\n");
    }

    /// Puts the lines of a table behind the others, each of which stands before an arrow and its answer.
    pub fn note_all(&mut self, rt: &impl Abort, table: &str) {
        for row in table.lines() {
            let (line, answer) = row.split_once(" => ").expect(rt, "an arrow");
            self.note(rt, line.as_bytes(), answer.as_bytes());
        }
    }

    /// The lines of tables of worked rows: an actor, the bytes of its request, those of the reply, and both in words.
    pub fn of_rows(rt: &impl Abort, alloc: Global, tables: &[&str]) -> Lines {
        let mut lines = Lines::new(alloc);
        for table in tables {
            lines.note_rows(rt, table);
        }
        lines
    }

    fn note_rows(&mut self, rt: &impl Abort, table: &str) {
        for row in table.lines() {
            let (columns, answer) = row.split_once(" => ").expect(rt, "an arrow");
            let told = put_line(rt, &mut self.asked, columns);
            put_answer(rt, &mut self.told, told, answer);
        }
    }
}

/// Puts a space and a word behind these.
fn put_word(rt: &impl Abort, line: &mut Vec<u8>, word: &str) {
    put(rt, line, b" ");
    put(rt, line, word.as_bytes());
}

/// Puts the line of a row behind these: its actor, and its words. An item that is delivered is named in words; in the line it
/// is spelled, as behind the first byte of its request. Answers the digits of the reply.
fn put_line<'a>(rt: &impl Abort, lines: &mut Vec<u8>, columns: &'a str) -> &'a str {
    let mut words = columns.split_whitespace();
    let actor = words.next().expect(rt, "an actor");
    let asked = words.next().expect(rt, "a request");
    let told = words.next().expect(rt, "a reply");
    put(rt, lines, actor.as_bytes());
    match asked.strip_prefix("14") {
        Some(item) => {
            put_word(rt, lines, "deliver");
            put_word(rt, lines, item);
        }
        None => {
            for word in words {
                put_word(rt, lines, word);
            }
        }
    }
    put(rt, lines, b"\n");
    told
}

/// Puts the line of a reply behind these. A batch is spelled, as behind the first byte of the reply.
fn put_answer(rt: &impl Abort, lines: &mut Vec<u8>, told: &str, answer: &str) {
    put(rt, lines, answer.as_bytes());
    if let Some(batch) = told.strip_prefix("10") {
        put_word(rt, lines, batch);
    }
    put(rt, lines, b"\n");
}
