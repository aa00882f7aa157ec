//! Whole texts in.
ghost use Rattle.ssr_program.specs.Private.Transfer.{ReadsAll};
ghost use Rattle.ssr_program.specs.declared.transfer.ReadError.TheVariants as errors;

use ssr_streams::{Failed, Source};
use std::alloc::{AllocError, Global};

/// Why not all bytes of a source could be read.
#[derive(Clone, Copy, Debug, PartialEq, Eq)]
pub(crate) enum ReadError {
    /// A read failed.
    Failed,
    /// There was no memory for the bytes.
    Memory,
}

impl From<Failed> for ReadError {
    ghost use Rattle.std.specs.Prelude.{◌≡◌};

    ghost from_gives = { λ _ error. error ≡ errors.Failed };

    fn from(_: Failed) -> ReadError {
        ReadError::Failed
    }
}

impl From<AllocError> for ReadError {
    ghost use Rattle.std.specs.Prelude.{◌≡◌};

    ghost from_gives = { λ _ error. error ≡ errors.Memory };

    fn from(_: AllocError) -> ReadError {
        ReadError::Memory
    }
}

/// How many bytes are asked for at once.
const AT_ONCE: usize = 16384;

/// All bytes that are left in the source.
pub(crate) fn read_all<R: Source>(alloc: Global, source: &mut R) -> Result<Vec<u8>, ReadError>
    ensures { ReadsAll (R.given source.old) (R.given source.new) result }
{
    let mut input = Vec::new(alloc);
    let mut buffer = [0; AT_ONCE];
    loop {
        let count = source.read(&mut buffer)?;
        if count == 0 {
            return Ok(input);
        }
        input.extend_from_slice(&buffer[..count])?;
    }
}
