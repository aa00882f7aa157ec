//! Whole texts out.
ghost use Rattle.std.specs.Prelude.{◌+◌, true, false, is_ok};
ghost use Rattle.std.specs.List.{flat_map};
ghost use Rattle.ssr_streams.specs.Streams.{Sent};

use crate::streams::{Failed, Sink};

/// Writes all bytes of a text.
pub fn write_all<W: Sink>(sink: &mut W, bytes: &[u8]) -> Result<(), Failed>
    ensures { Sent (W.taken sink.old) (W.taken sink.new) bytes.now (is_ok result) }
{
    let mut at = 0;
    while at < bytes.len() {
        match sink.write(&bytes[at..]) {
            Ok(0) => return Err(Failed { is_closed: false }),
            Ok(count) => at += count,
            Err(failed) => return Err(failed),
        }
    }
    Ok(())
}

/// Writes the pieces of a text one after the other, without memory of its own; whether all went out.
pub fn write_pieces<W: Sink>(sink: &mut W, pieces: &[&str]) -> bool
    ensures { Sent (W.taken sink.old) (W.taken sink.new) (flat_map (λ piece. piece.now) pieces.now) result }
{
    for piece in pieces {
        match write_all(sink, piece.as_bytes()) {
            Ok(()) => {}
            Err(_) => return false,
        }
    }
    true
}
