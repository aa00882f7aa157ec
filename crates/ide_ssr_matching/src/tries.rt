//! How many nodes were tried. A `Tries` has no bytes at run time: only contracts see the number.
ghost use Rattle.std.specs.Prelude.{◌≡◌, ◌+◌};

use http_server::Log;
use std::marker::Model;

/// A counter of the nodes at which a rule was tried, for contracts alone.
#[derive(Drop)]
pub struct Tries {
    log: Log<(), ()>,
}

impl Model for Tries {
    ghost use Rattle.std.specs.Prelude.{ℕ, length};

    ghost Value = { ℕ };

    ghost view = { λ tries. length tries.log.items };
}

impl Tries {
    /// A counter before the first node is tried.
    pub fn none() -> Tries
        ensures { result ≡ 0 }
    {
        Tries { log: Log::new() }
    }

    /// Counts a node that is tried.
    pub(crate) fn one_more(&mut self)
        ensures { self.new ≡ self.old + 1 }
    {
        self.log = self.log.and(&(), &());
    }
}
