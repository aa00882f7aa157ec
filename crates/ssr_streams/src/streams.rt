//! What the program reads from and writes to.
ghost use Rattle.std.specs.Prelude.{IfOk, OnErr};
ghost use Rattle.ssr_streams.specs.Streams.{Given, Taken, Gives, GivesNothing, Takes, TakesNothing};

/// A read or a write that failed.
#[derive(Clone, Copy, Debug, PartialEq, Eq)]
pub struct Failed {
    /// Whether nobody is at the other end any more.
    pub is_closed: bool,
}

/// Where bytes come from.
pub trait Source {
    ghost given: { Self → Given };

    /// Puts the next bytes at the front of `buf`, and answers how many they are. With room for a byte, 0 is the end.
    fn read(&mut self, buf: &mut [u8]) -> Result<usize, Failed>
        ensures ok { IfOk result (Gives (given self.old) (given self.new) buf.new) }
        ensures err { OnErr result (GivesNothing (given self.old) (given self.new)) };
}

/// Where bytes go to.
pub trait Sink {
    ghost taken: { Self → Taken };

    /// Takes bytes from the front of `buf`, and answers how many they were.
    fn write(&mut self, buf: &[u8]) -> Result<usize, Failed>
        ensures ok { IfOk result (Takes (taken self.old) (taken self.new) buf.now) }
        ensures err { OnErr result (TakesNothing (taken self.old) (taken self.new)) };
}
