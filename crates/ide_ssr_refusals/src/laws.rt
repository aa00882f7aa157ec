//! What holds of the values of this crate.
ghost use Rattle.std.specs.Prelude.{◌≡◌, ◌↔◌, IsTrue};
ghost use Rattle.ide_ssr_refusals.specs.Refusals.{message_of};

use crate::error::SsrError;

/// Two errors are equal exactly where both have one message, or both are want of memory.
pub fn equality(error: &SsrError, other: &SsrError) -> bool
    ensures { IsTrue result ↔ message_of error.now ≡ message_of other.now }
{
    error == other
}
