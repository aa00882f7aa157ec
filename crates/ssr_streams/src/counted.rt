//! Readers and writers as the program's source and sink. What they gave and took so far is known to proofs alone:
//! a `Log` has no bytes at run time.
ghost use Rattle.std.specs.Prelude.{◌≡◌, ◌++◌, [], false, length};
ghost use Rattle.ssr_streams.specs.Private.Noted.{bytes_of};

use crate::streams::{Failed, Sink, Source};
use http_server::Log;
use std::io::{Error, ErrorKind, Read, Write};
use std::{io, mem};

/// What could not be opened, as a reader: each read fails.
#[derive(Clone, Copy, Debug)]
pub struct Unopened;

impl Read for Unopened {
    fn read(&mut self, _: &mut [u8]) -> io::Result<usize> {
        Err(Error::from(ErrorKind::NotFound))
    }
}

/// A reader as a source.
#[derive(Drop)]
pub struct CountedSource<R> {
    inner: R,
    given: Log<u8, ()>,
    failed: Log<(), ()>,
    ended: bool,
}

impl<R: Read> CountedSource<R> {
    /// A reader that gave nothing yet.
    pub fn new(inner: R) -> CountedSource<R>
        ensures { ⟦<CountedSource<R> as Source>⟧.given result ≡ record { bytes = []; remaining = R.remaining inner; ended = false; failures = 0 } }
    {
        CountedSource {
            inner,
            given: Log::new(),
            failed: Log::new(),
            ended: false,
        }
    }
}

impl<R: Read> Source for CountedSource<R> {
    ghost given = { λ s. record { bytes = bytes_of s.given.items; remaining = R.remaining s.inner; ended = s.ended; failures = length s.failed.items } };

    fn read(&mut self, buf: &mut [u8]) -> Result<usize, Failed> {
        match self.inner.read(buf) {
            Ok(count) => {
                self.ended = count == 0;
                self.given = noted(mem::replace(&mut self.given, Log::new()), &buf[..count]);
                Ok(count)
            }
            Err(error) => {
                self.failed = self.failed.and(&(), &());
                Err(failed(&error))
            }
        }
    }
}

/// A writer as a sink.
#[derive(Drop)]
pub struct CountedSink<W> {
    inner: W,
    taken: Log<u8, ()>,
    failed: Log<(), ()>,
}

impl<W: Write> CountedSink<W> {
    /// A writer that took nothing yet.
    pub fn new(inner: W) -> CountedSink<W>
        ensures { ⟦<CountedSink<W> as Sink>⟧.taken result ≡ record { bytes = []; contents = W.contents inner; failures = 0 } }
    {
        CountedSink {
            inner,
            taken: Log::new(),
            failed: Log::new(),
        }
    }
}

impl<W: Write> Sink for CountedSink<W> {
    ghost taken = { λ s. record { bytes = bytes_of s.taken.items; contents = W.contents s.inner; failures = length s.failed.items } };

    fn write(&mut self, buf: &[u8]) -> Result<usize, Failed> {
        match self.inner.write(buf) {
            Ok(count) => {
                self.taken = noted(mem::replace(&mut self.taken, Log::new()), &buf[..count]);
                if count == 0 {
                    self.failed = self.failed.and(&(), &());
                }
                Ok(count)
            }
            Err(error) => {
                self.failed = self.failed.and(&(), &());
                Err(failed(&error))
            }
        }
    }
}

/// What is known of a failure.
fn failed(error: &Error) -> Failed {
    Failed {
        is_closed: error.kind() == ErrorKind::BrokenPipe,
    }
}

/// The bytes of the log and those of the slice behind them.
fn noted(log: Log<u8, ()>, bytes: &[u8]) -> Log<u8, ()>
    ensures { bytes_of result.items ≡ bytes_of log.items ++ bytes.now }
{
    let mut all = log;
    for byte in bytes {
        all = all.and(byte, &());
    }
    all
}
