//! Answers that wait to be written together.

ghost use Rattle.std.specs.Prelude.{◌≡◌, ◌+◌, ◌<◌, ◌≤◌, ◌++◌, [], true, false, length, IfOk};
ghost use Rattle.tardis_io.specs.Told.{WhileTold, GivesAll};
ghost use Rattle.tardis_io.specs.Faults.{HasCause};

use std::alloc::Global;
use std::marker::Model;
use tardis_base::NoMemory;
use tardis_io::{Sink, WriteFault, write_all};

/// Bytes that are gathered for a sink, in room that was taken once. It is seen as these bytes and the room.
#[derive(Drop)]
pub struct Gathered {
    buf: Vec<u8>,
    len: usize,
}

impl Model for Gathered {
    ghost use Rattle.std.specs.Prelude.{◌≤◌, length, take};
    ghost use Rattle.site_run.specs.Gathering.{Gathering};

    ghost Value = { Gathering };

    ghost view = { λ g. record { bytes = take g.len g.buf.items; room = length g.buf.items } };

    ghost invariant = { λ g. g.len ≤ length g.buf.items };
}

impl Gathered {
    /// No bytes, and room for so many.
    pub fn new(alloc: Global, room: usize) -> Result<Gathered, NoMemory>
        ensures { IfOk result (λ g. g ≡ record { bytes = []; room = room }) }
    {
        match vec![in alloc; 0; room] {
            Ok(buf) => Ok(Gathered { buf, len: 0 }),
            Err(_) => Err(NoMemory),
        }
    }

    /// Whether so many more bytes fit.
    pub fn has_room(&self, count: usize) -> bool
        ensures fits { result ≡ true → length self.now.bytes + count ≤ self.now.room }
        ensures full { result ≡ false → self.now.room < length self.now.bytes + count }
    {
        count <= self.buf.len() - self.len
    }

    /// Puts bytes behind those that are there.
    pub fn put(&mut self, bytes: &[u8])
        requires { length self.old.bytes + length bytes.now ≤ self.old.room }
        ensures bytes { self.new.bytes ≡ self.old.bytes ++ bytes.now }
        ensures room { self.new.room ≡ self.old.room }
    {
        self.buf[self.len..self.len + bytes.len()].copy_from_slice(bytes);
        self.len += bytes.len();
    }

    /// Writes all bytes, and then holds none. After a fault a front of them was written, and the rest is lost.
    pub fn write_to<O: Sink>(&mut self, output: &mut O) -> Result<(), WriteFault>
        ensures bytes { WhileTold (O.given output.old) (O.given output.new) (λ before after. GivesAll before after result self.old.bytes) }
        ensures cause { HasCause (O.faults output.old) (O.faults output.new) result }
        ensures kept { O.kept output.new ≡ O.kept output.old }
        ensures within { length self.old.bytes ≤ self.old.room }
        ensures none { self.new.bytes ≡ [] }
        ensures room { self.new.room ≡ self.old.room }
    {
        let written = write_all(output, &self.buf[..self.len]);
        self.len = 0;
        written
    }
}
