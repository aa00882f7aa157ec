//! Ranges of bytes in a text.

ghost use Rattle.std.specs.Prelude.{◌≡◌, ◌-◌, ◌<◌, ◌≤◌, ◌↔◌, min, max, IsTrue};

/// A range of bytes in a text: from `start` up to before `end`.
#[derive(Clone, Copy, Debug, PartialEq, Eq)]
pub struct TextRange {
    pub start: u32,
    pub end: u32,
    ghost ordered: { start ≤ end },
}

impl TextRange {
    /// The range from the byte `start` up to before the byte `end`, which is `start` or more.
    pub fn new(start: u32, end: u32) -> TextRange
        requires { start ≤ end }
        ensures start { result.start ≡ start }
        ensures end { result.end ≡ end }
    {
        TextRange { start, end }
    }

    /// The first byte of the range; where it is empty, the byte at which it stands.
    pub fn start(self) -> u32
        ensures { result ≡ self.start }
    {
        self.start
    }

    /// The byte behind the last one.
    pub fn end(self) -> u32
        ensures { result ≡ self.end }
    {
        self.end
    }

    /// How many bytes the range has.
    pub fn len(self) -> u32
        ensures { result ≡ self.end - self.start }
    {
        self.end - self.start
    }

    /// Whether the range has no byte.
    pub fn is_empty(self) -> bool
        ensures { IsTrue result ↔ (self.start ≡ self.end) }
    {
        self.start == self.end
    }

    /// Whether the byte at `offset` lies in the range.
    pub fn contains(self, offset: u32) -> bool
        ensures { IsTrue result ↔ ((self.start ≤ offset) × (offset < self.end)) }
    {
        self.start <= offset && offset < self.end
    }

    /// Whether the two ranges share a byte.
    pub fn overlaps(self, other: TextRange) -> bool
        ensures { IsTrue result ↔ (max self.start other.start < min self.end other.end) }
    {
        self.start.max(other.start) < self.end.min(other.end)
    }
}
