//! What holds a kept match.

/// What holds a kept match: the place of a match among those kept, and the place of one of its bindings.
#[derive(Clone, Copy, Debug, PartialEq, Eq)]
pub struct Holder {
    pub place: usize,
    pub binding: usize,
}
