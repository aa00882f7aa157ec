//! The names of short texts.
ghost use Rattle.std.specs.Prelude.{◌≡◌, IfSome};
ghost use Rattle.ssr_syntax_shorts.specs.Shorts.{moved};

/// A name in a short text: the byte at which it begins, and how many bytes what it stands for has.
#[derive(Clone, Copy, Debug)]
pub struct Name {
    pub at: usize,
    pub bytes: usize,
}

/// The name so many bytes further on; none where no text is so long.
pub(crate) fn moved(name: Name, count: usize) -> Option<Name>
    ensures { IfSome result (λ far. far ≡ moved count name) }
{
    let at = count.checked_add(name.at)?;
    Some(Name {
        at,
        bytes: name.bytes,
    })
}
