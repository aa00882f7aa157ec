//! Where a run writes.
ghost use Rattle.std.specs.Prelude.{◌≡◌, is_ok};
ghost use Rattle.cargo_ssr_program.specs.Private.Telling.{TellsOnly};
ghost use Rattle.ssr_streams.specs.Streams.{Sent};

use crate::failure::Failure;
use ssr_streams::{Failed, Sink, write_all};
use std::io::Write;

/// Where a run writes: what is asked for goes to the one, and all else to the other.
#[derive(Drop)]
pub struct Console<W, E> {
    /// Where what is asked for goes.
    pub out: W,
    /// Where all else goes.
    pub err: E,
    /// Whether a terminal shows what is asked for.
    pub terminal: bool,
}

impl<W: Sink, E: Write> Console<W, E> {
    /// Standard output and standard error, and whether a terminal shows the first, and colours on it are wanted.
    pub fn new(out: W, err: E, terminal: bool) -> Console<W, E>
        ensures { result ≡ record { out = out; err = err; terminal = terminal } }
    {
        Console { out, err, terminal }
    }

    /// Writes a text that is asked for.
    pub(crate) fn show(&mut self, text: &str) -> Result<(), Failure>
        ensures { Sent (W.taken self.old.out) (W.taken self.new.out) text.now (is_ok result) }
    {
        self.show_bytes(text.as_bytes())
    }

    /// Writes what is asked for.
    pub(crate) fn show_bytes(&mut self, bytes: &[u8]) -> Result<(), Failure>
        ensures { Sent (W.taken self.old.out) (W.taken self.new.out) bytes.now (is_ok result) }
    {
        match write_all(&mut self.out, bytes) {
            Ok(()) => Ok(()),
            Err(Failed { is_closed: true }) => Err(Failure::Closed),
            Err(Failed { is_closed: false }) => Err(Failure::Output),
        }
    }

    /// Tells a line. Where it can't be told, the run goes on.
    pub(crate) fn tell(&mut self, line: &str)
        ensures { TellsOnly self.old self.new }
    {
        let _ = self.err.write_all(line.as_bytes());
        let _ = self.err.write_all(b"\n");
    }

    /// Tells why a run ends. That nobody reads on isn't told.
    pub(crate) fn tell_failure(&mut self, failure: &Failure)
        ensures { TellsOnly self.old self.new }
    {
        if matches!(failure, Failure::Closed) {
            return;
        }
        let _ = self.err.write_all(b"error: ");
        self.tell(failure.words());
    }
}
