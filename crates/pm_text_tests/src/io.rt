//! What the adapters over readers, writers and sockets answer, one call after another.

mod sockets;

use pm_io::{StdSink, StdSource};
use pm_model::{Failed, Sink, Source};
use std::io;
use std::io::{Cursor, Error, ErrorKind, Read, Write};
use std::process::Abort;
use std::test::Fail;

// What reads of at most two bytes give, one after another; None is a failed one.
fn reads<S: Source>(rt: &impl Abort, source: &mut S, expected: &[Option<&[u8]>]) {
    let mut piece = [0u8; 2];
    for given in expected {
        match source.read(&mut piece) {
            Ok(count) => assert!(rt; *given == Some(&piece[..count])),
            Err(Failed) => assert!(rt; given.is_none()),
        }
    }
}

// What writes of `abc` answer, one after another.
fn writes<S: Sink>(rt: &impl Abort, sink: &mut S, expected: &[Result<usize, Failed>]) {
    for answer in expected {
        assert_eq!(rt; sink.write(b"abc"), *answer);
    }
}

static WHOLE: &[Option<&[u8]>] = &[Some(b"ab"), Some(b"c"), Some(b"")];

#[test]
fn a_source_gives_the_bytes_of_its_reader(rt: HostRuntime) {
    let mut std = StdSource::new(b"abc".as_slice());
    reads(&rt, &mut std, WHOLE);
}

// Fails at its first call, then gives a byte, then none, and counts its calls.
#[derive(Drop)]
struct Balky {
    calls: usize,
}

impl Read for Balky {
    fn read(&mut self, buf: &mut [u8]) -> io::Result<usize> {
        self.calls = self.calls.saturating_add(1);
        match self.calls {
            1 => Err(Error::from(ErrorKind::Interrupted)),
            2 => Ok(buf.len().min(1)),
            _ => Ok(0),
        }
    }
}

#[test]
fn a_source_asks_its_reader_once_a_read(rt: HostRuntime) {
    let mut reader = Balky { calls: 0 };
    let answers = [Err(Failed), Ok(1), Ok(0), Ok(0)];
    for (before, answer) in answers.iter().enumerate() {
        assert_eq!(rt; reader.calls, before);
        let mut source = StdSource::new(&mut reader);
        assert_eq!(rt; source.read(&mut [0u8; 2]), *answer);
    }
    assert_eq!(rt; reader.calls, 4);
}

// Fails to take at its first call and to hand on at its second flush, and counts its calls.
#[derive(Drop)]
struct Clogged {
    writes: usize,
    flushes: usize,
    taken: usize,
}

impl Write for Clogged {
    fn write(&mut self, buf: &[u8]) -> io::Result<usize> {
        self.writes = self.writes.saturating_add(1);
        if self.writes == 1 {
            return Err(Error::from(ErrorKind::Interrupted));
        }
        self.taken = self.taken.saturating_add(buf.len());
        Ok(buf.len())
    }

    fn flush(&mut self) -> io::Result<()> {
        self.flushes = self.flushes.saturating_add(1);
        if self.flushes == 2 {
            return Err(Error::from(ErrorKind::BrokenPipe));
        }
        Ok(())
    }
}

// What a write of three bytes answers, and how many flushes and bytes there are then.
const FLUSHED: [(Result<usize, Failed>, usize, usize); 4] = [
    (Err(Failed), 0, 0),
    (Ok(3), 1, 3),
    (Err(Failed), 2, 6),
    (Ok(3), 3, 9),
];

#[test]
fn a_sink_asks_its_writer_once_a_write(rt: HostRuntime) {
    let mut writer = Clogged {
        writes: 0,
        flushes: 0,
        taken: 0,
    };
    for (before, (answer, flushes, taken)) in FLUSHED.iter().enumerate() {
        assert!(rt; writer.writes == before);
        writes(&rt, &mut StdSink::new(&mut writer), &[*answer]);
        assert_eq!(rt; (writer.flushes, writer.taken), (*flushes, *taken));
    }
    assert!(rt; writer.writes == 4);
}

#[test]
fn a_writer_takes_what_its_sink_is_given(rt: HostRuntime) {
    let mut held = Vec::new(rt.alloc());
    writes(&rt, &mut StdSink::new(&mut held), &[Ok(3), Ok(3)]);
    assert_eq!(rt; held.as_slice(), b"abcabc".as_slice());
}

#[test]
fn a_full_writer_takes_nothing(rt: HostRuntime) {
    let mut room = [0u8; 5];
    let mut full = StdSink::new(Cursor::new(room.as_mut_slice()));
    writes(&rt, &mut full, &[Ok(3), Ok(2), Ok(0)]);
}
