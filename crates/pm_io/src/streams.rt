//! A source and a sink over std's readers and writers. The calls of the reader and the writer stand
//! in one place each; what their answers come to is told exactly by functions of their own.

ghost use Rattle.std.specs.Prelude.{◌≡◌};
ghost use Rattle.std.specs.Io.{ReadsAtMost, WritesAtMost};
ghost use Rattle.std.specs.Io.KnownBytes.{ReadConsumes};
ghost use Rattle.pm_model.specs.Causes.{HasCause, HasWriteCause, ends_after};
ghost use Rattle.pm_io.specs.Devices.{IsTold, TakesFront, faults_read, faults_written};

use crate::counting::{count_end, count_none, raise};
use pm_model::{Failed, Sink, Source};
use std::io;
use std::io::{Read, Write};
use std::marker::Model;

/// A reader of std, and what it answered, counted. It tells no content.
pub struct StdSource<R> {
    inner: R,
    faults: u64,
    ends: u64,
}

impl<R> Model for StdSource<R> {
    ghost use Rattle.pm_io.specs.Devices.{CountedReader};

    ghost Value = { CountedReader R };

    ghost view = { λ s. record { inner = s.inner; faults = s.faults; ends = s.ends } };
}

impl<R: Drop> Drop for StdSource<R> {
    fn drop(self) {
        let StdSource {
            inner: _,
            faults: _,
            ends: _,
        } = self;
    }
}

impl<R: Read> StdSource<R> {
    /// A source of what the reader gives.
    pub fn new(inner: R) -> StdSource<R>
        ensures { result ≡ record { inner = inner; faults = 0; ends = 0 } }
    {
        StdSource {
            inner,
            faults: 0,
            ends: 0,
        }
    }

    // The reader's answer, counted.
    fn counted(&mut self, answer: io::Result<usize>) -> Result<usize, Failed>
        ensures told { IsTold answer result }
        ensures counts { self.new ≡ record self.old {
          faults = faults_read self.old.faults answer;
          ends = ends_after self.old.ends answer;
        } }
        ensures cause { HasCause self.old.faults self.new.faults result }
    {
        match answer {
            Ok(count) => {
                count_end(&mut self.ends, count);
                Ok(count)
            }
            Err(_) => {
                raise(&mut self.faults);
                Err(Failed)
            }
        }
    }
}

impl<R: Read> Source for StdSource<R> {
    ghost use Rattle.std.specs.Prelude.{None};

    ghost left = { λ s. None };

    ghost faults = { λ s. s.faults };

    ghost ends = { λ s. s.ends };

    fn read(&mut self, piece: &mut [u8]) -> Result<usize, Failed>
        ensures bound { ReadsAtMost result piece.new }
        ensures bytes { ReadConsumes (R.remaining self.old.inner) (R.remaining self.new.inner) result piece.new }
        ensures cause { HasCause self.old.faults self.new.faults result }
        ensures end { self.new.ends ≡ ends_after self.old.ends result }
        ensures faults { self.new.faults ≡ faults_read self.old.faults result }
    {
        let answer = self.inner.read(piece);
        self.counted(answer)
    }
}

/// A writer of std, flushed after each write, and how often it has failed. It tells no content.
pub struct StdSink<W> {
    inner: W,
    faults: u64,
}

impl<W> Model for StdSink<W> {
    ghost use Rattle.pm_io.specs.Devices.{CountedWriter};

    ghost Value = { CountedWriter W };

    ghost view = { λ s. record { inner = s.inner; faults = s.faults } };
}

impl<W: Drop> Drop for StdSink<W> {
    fn drop(self) {
        let StdSink {
            inner: _,
            faults: _,
        } = self;
    }
}

// The writer's answer, once what it took is flushed.
fn write_through<W: Write>(writer: &mut W, piece: &[u8]) -> io::Result<usize>
    ensures bound { WritesAtMost result piece.now }
    ensures bytes { TakesFront (W.contents writer.old) (W.contents writer.new) result piece.now }
{
    let count = writer.write(piece)?;
    writer.flush()?;
    Ok(count)
}

impl<W: Write> StdSink<W> {
    /// A sink that hands its bytes to the writer.
    pub fn new(inner: W) -> StdSink<W>
        ensures { result ≡ record { inner = inner; faults = 0 } }
    {
        StdSink { inner, faults: 0 }
    }

    // The writer's answer to a write of this piece, counted.
    fn counted(&mut self, piece: &[u8], answer: io::Result<usize>) -> Result<usize, Failed>
        ensures told { IsTold answer result }
        ensures counts { self.new ≡ record self.old { faults = faults_written self.old.faults answer piece.now } }
        ensures cause { HasWriteCause self.old.faults self.new.faults result piece.now }
    {
        match answer {
            Ok(count) => {
                count_none(&mut self.faults, count, piece);
                Ok(count)
            }
            Err(_) => {
                raise(&mut self.faults);
                Err(Failed)
            }
        }
    }
}

impl<W: Write> Sink for StdSink<W> {
    ghost use Rattle.std.specs.Prelude.{None};

    ghost taken = { λ s. None };

    ghost faults = { λ s. s.faults };

    // Failed also where the flush fails: how many of the bytes have gone through isn't known then.
    fn write(&mut self, piece: &[u8]) -> Result<usize, Failed>
        ensures bound { WritesAtMost result piece.now }
        ensures bytes { TakesFront (W.contents self.old.inner) (W.contents self.new.inner) result piece.now }
        ensures cause { HasWriteCause self.old.faults self.new.faults result piece.now }
        ensures faults { self.new.faults ≡ faults_written self.old.faults result piece.now }
    {
        let answer = write_through(&mut self.inner, piece);
        self.counted(piece, answer)
    }
}
