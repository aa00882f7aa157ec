//! Places in two texts.
ghost use Rattle.std.specs.Prelude.{◌≡◌, ◌-◌, ◌<◌, ◌↔◌, IsTrue};

/// A place before a line of two texts: how many lines stand before it in each.
#[derive(Clone, Copy)]
pub(crate) struct Place {
    pub(crate) old: usize,
    pub(crate) new: usize,
}

impl Place {
    /// The place one line before in both texts.
    pub(crate) fn line_before(self) -> Place
        requires old { 0 < self.old }
        requires new { 0 < self.new }
        ensures { result ≡ record { old = self.old - 1; new = self.new - 1 } }
    {
        Place {
            old: self.old - 1,
            new: self.new - 1,
        }
    }
}

/// Lines of the old text, and those of the new one in their place.
#[derive(Clone, Copy)]
pub(crate) struct Block {
    pub(crate) from: Place,
    pub(crate) to: Place,
}

impl Block {
    /// Whether the block has no line.
    pub(crate) fn is_empty(&self) -> bool
        ensures { IsTrue result ↔ ((self.now.from.old ≡ self.now.to.old) × (self.now.from.new ≡ self.now.to.new)) }
    {
        self.from.old == self.to.old && self.from.new == self.to.new
    }
}
