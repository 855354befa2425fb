ghost use Rattle.std.specs.Prelude.{◌≤◌, IfOk};

use crate::streams::{put, takes};
use std::alloc::Global;
use std::io;
use std::io::{Error, ErrorKind, Read, Write};
use std::process::Abort;
use tardis_base::StateId;
use tardis_io::{
    Failed, ReaderSource, Sink, Source, Status, StdIn, StdOut, WriteFault, WriterSink, write_all,
};

/// Whether a give of these bytes, which must be some, answers this.
fn gives<O: Sink>(sink: &mut O, bytes: &[u8], want: Result<usize, Failed>) -> bool {
    !bytes.is_empty() && sink.give(bytes) == want
}

/// Whether the line of the status is this.
fn is_told(rt: &impl Abort, alloc: Global, status: Status, want: &str) -> bool {
    let line = format!(in alloc; "{status}").expect(rt, "room");
    let is_this = line.as_str() == want;
    drop(line);
    is_this
}

#[test]
fn numbers_and_lines_of_the_statuses(rt: HostRuntime) {
    let statuses = [
        (Status::Ok, 0, ""),
        (Status::Usage, 1, "usage: tardis COMMAND OPTIONS"),
        (Status::ReadFault, 2, "tardis: read fault"),
        (Status::WriteFault, 3, "tardis: write fault"),
        (Status::Cut, 4, "tardis: input ends inside a frame"),
        (
            Status::LongFrame { len: 1_048_577 },
            5,
            "tardis: frame too long: 1048577",
        ),
        (Status::NoMemory, 6, "tardis: out of memory"),
        (Status::GateFault, 7, "tardis: gate fault"),
        (Status::DialFault, 8, "tardis: dial fault"),
        (Status::Spent, 9, "tardis: input too large"),
        (Status::DiskFault, 10, "tardis: disk fault"),
        (Status::BadExport, 11, "tardis: not an export"),
        (
            Status::NoState {
                state: StateId::ROOT,
            },
            12,
            "tardis: no such state 0.0",
        ),
    ];
    for (status, number, want) in statuses {
        assert!(rt; is_told(&rt, rt.alloc(), status, want), "status {number}");
        assert_eq!(rt; status.number(), number);
    }
}

/// A device that answers its calls in turn: an error, an interruption, nothing, and then each byte.
#[derive(Drop)]
struct Unsteady {
    calls: u8,
    flushes: u8,
}

impl Unsteady {
    fn answer(&mut self) -> io::Result<usize>
        ensures { IfOk result (λ n. n ≤ 1) }
    {
        self.calls = self.calls.saturating_add(1);
        match self.calls {
            1 => Err(Error::from(ErrorKind::Other)),
            2 => Err(Error::from(ErrorKind::Interrupted)),
            3 => Ok(0),
            _ => Ok(1),
        }
    }
}

impl Read for Unsteady {
    fn read(&mut self, buf: &mut [u8]) -> io::Result<usize> {
        let count = self.answer()?;
        Ok(count.min(buf.len()))
    }
}

impl Write for Unsteady {
    fn write(&mut self, buf: &[u8]) -> io::Result<usize> {
        let count = self.answer()?;
        Ok(count.min(buf.len()))
    }

    fn flush(&mut self) -> io::Result<()> {
        self.flushes = self.flushes.saturating_add(1);
        if self.flushes < 2 {
            Ok(())
        } else {
            Err(Error::from(ErrorKind::Other))
        }
    }
}

fn new_device() -> Unsteady {
    Unsteady {
        calls: 0,
        flushes: 0,
    }
}

#[test]
fn a_reader_counts_each_error(rt: HostRuntime) {
    let mut source = ReaderSource::new(new_device());
    let mut buf = [0u8; 4];
    for (want, faults) in [(Err(Failed), 1), (Ok(0), 2), (Ok(1), 2)] {
        assert!(rt; takes(&mut source, &mut buf, want));
        assert_eq!(rt; source.faults(), faults);
    }
    let mut input = StdIn::new(rt.stdin());
    assert!(rt; takes(&mut input, &mut buf, Ok(0)));
    assert_eq!(rt; input.faults(), 0);
}

#[test]
fn a_writer_counts_each_error_and_each_write_of_nothing(rt: HostRuntime) {
    let mut sink = WriterSink::new(new_device());
    for (want, faults) in [
        (Err(Failed), 1),
        (Err(Failed), 3),
        (Ok(1), 3),
        (Err(Failed), 4),
    ] {
        assert!(rt; gives(&mut sink, b"ab", want));
        assert_eq!(rt; sink.faults(), faults);
    }
    let mut output = StdOut::new(rt.stdout());
    assert!(rt; gives(&mut output, b"\n", Ok(1)));
    assert_eq!(rt; output.faults(), 0);
}

/// More bytes than two pieces of a run have, in no pattern that a piece repeats.
fn many_bytes(rt: &impl Abort, alloc: Global) -> Vec<u8> {
    let mut bytes = Vec::new(alloc);
    for number in 0..40_000u32 {
        let word = number.wrapping_mul(2_654_435_761).to_be_bytes();
        put(rt, &mut bytes, &word);
    }
    bytes
}

/// A reader of these bytes, of which each call moves at most so many.
#[derive(Drop)]
struct SlowReader<'a> {
    rest: &'a [u8],
    most: usize,
}

/// A writer behind these bytes, of which each call moves at most so many.
#[derive(Drop)]
struct SlowWriter<'a> {
    seen: &'a mut Vec<u8>,
    most: usize,
}

impl Read for SlowReader<'_> {
    fn read(&mut self, buf: &mut [u8]) -> io::Result<usize> {
        let count = self.most.min(buf.len()).min(self.rest.len());
        buf[..count].copy_from_slice(&self.rest[..count]);
        self.rest = &self.rest[count..];
        Ok(count)
    }
}

impl Write for SlowWriter<'_> {
    fn write(&mut self, buf: &[u8]) -> io::Result<usize> {
        let count = self.most.min(buf.len());
        match self.seen.extend_from_slice(&buf[..count]) {
            Ok(()) => Ok(count),
            Err(_) => Err(Error::from(ErrorKind::OutOfMemory)),
        }
    }

    fn flush(&mut self) -> io::Result<()> {
        Ok(())
    }
}

/// How many bytes a run takes at once at most.
const PIECE: usize = 65_536;

/// How many bytes a call of a slow device moves at most.
const PACES: [usize; 4] = [200_000, 65_537, 4_097, 1_000];

/// A buffer for a piece.
fn piece(rt: &impl Abort, alloc: Global) -> Vec<u8> {
    vec![in alloc; 0; PIECE].expect(rt, "room")
}

/// Puts what one take gives behind the bytes. Whether it gave some.
fn take_some<S: Source>(
    rt: &impl Abort,
    source: &mut S,
    buf: &mut [u8],
    taken: &mut Vec<u8>,
) -> bool {
    if buf.is_empty() {
        return false;
    }
    match source.take(buf) {
        Ok(0) | Err(Failed) => false,
        Ok(count) => {
            put(rt, taken, &buf[..count]);
            true
        }
    }
}

/// Puts what so many takes give behind the bytes, until one gives nothing or fails.
fn take_all<S: Source>(
    rt: &impl Abort,
    source: &mut S,
    buf: &mut [u8],
    takes: usize,
    taken: &mut Vec<u8>,
) {
    for _ in 0..takes {
        if !take_some(rt, source, buf, taken) {
            return;
        }
    }
}

/// Whether a reader that moves at most so many bytes in a call gives all of these.
fn is_read(rt: &impl Abort, alloc: Global, bytes: &[u8], buf: &mut [u8], most: usize) -> bool {
    let mut source = ReaderSource::new(SlowReader { rest: bytes, most });
    let mut taken = Vec::new(alloc);
    take_all(rt, &mut source, buf, bytes.len(), &mut taken);
    let is_whole = taken.as_slice() == bytes;
    drop(taken);
    is_whole
}

#[test]
fn a_reader_loses_no_byte(rt: HostRuntime) {
    let bytes = many_bytes(&rt, rt.alloc());
    let mut buf = piece(&rt, rt.alloc());
    for most in PACES {
        assert!(rt;
            is_read(&rt, rt.alloc(), bytes.as_slice(), buf.as_mut_slice(), most),
            "takes of {most}"
        );
    }
    drop(buf);
    drop(bytes);
}

/// Whether a writer that moves at most so many bytes in a call takes all of these.
fn is_written(seen: &mut Vec<u8>, bytes: &[u8], most: usize) -> bool {
    let mut sink = WriterSink::new(SlowWriter { seen, most });
    write_all(&mut sink, bytes) == Ok(())
}

#[test]
fn a_writer_loses_no_byte(rt: HostRuntime) {
    let bytes = many_bytes(&rt, rt.alloc());
    for most in PACES {
        let mut seen = Vec::new(rt.alloc());
        assert!(rt; is_written(&mut seen, bytes.as_slice(), most));
        assert!(rt; seen == bytes, "gives of {most}");
        drop(seen);
    }
    drop(bytes);
}

/// The text of a read or a write that failed.
fn text_of_failed(rt: &impl Abort, alloc: Global) -> String {
    format!(in alloc; "{}", Failed).expect(rt, "room")
}

/// The text of a fault of writing all bytes.
fn text_of_write_fault(rt: &impl Abort, alloc: Global) -> String {
    format!(in alloc; "{}", WriteFault).expect(rt, "room")
}

#[test]
fn faults_have_texts(rt: HostRuntime) {
    let failed = text_of_failed(&rt, rt.alloc());
    assert_eq!(rt; failed.as_str(), "a read or a write failed");
    drop(failed);
    let write = text_of_write_fault(&rt, rt.alloc());
    assert_eq!(rt;
        write.as_str(),
        "writing failed before all bytes were written"
    );
    drop(write);
}
