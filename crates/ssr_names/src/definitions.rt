//! What names and paths stand for.
ghost use Rattle.std.specs.Prelude.{◌≡◌, ◌⊎◌, true};
ghost use Rattle.ssr_names.specs.Private.Meanings.{Means, is_something};

use ssr_names_items::{ItemNo, ModuleNo, Name};

/// The number of a path among `OutsidePaths`.
#[derive(Clone, Copy, Debug, PartialEq, Eq, PartialOrd, Ord)]
pub(crate) struct OutsideNo(pub(crate) u32);

/// A definition that a name stands for.
#[derive(Clone, Copy, Debug, PartialEq, Eq, PartialOrd, Ord)]
pub(crate) enum Definition {
    Module(ModuleNo),
    Item(ItemNo),
    /// A path of a crate that isn't read, or a builtin type.
    Outside(OutsideNo),
    /// What has this name behind a type or a trait of the run, and isn't declared there once.
    Member(ItemNo, Name),
}

impl Definition {
    /// Whether this is the same definition.
    pub(crate) fn is(self, other: Definition) -> bool
        ensures { result ≡ true → self ≡ other }
    {
        match (self, other) {
            (Definition::Module(one), Definition::Module(two)) => one.0 == two.0,
            (Definition::Item(one), Definition::Item(two)) => one.0 == two.0,
            (Definition::Outside(one), Definition::Outside(two)) => one.0 == two.0,
            (Definition::Member(one, name), Definition::Member(two, other)) => {
                one.0 == two.0 && name.0 == other.0
            }
            _ => false,
        }
    }
}

/// What is known of what a name stands for.
#[derive(Clone, Copy, Debug, PartialEq, Eq)]
pub(crate) enum Meaning {
    /// There is nothing of that name.
    Nothing,
    One(Definition),
    /// It may be something that isn't known.
    Unknown,
}

impl Meaning {
    /// What is known from two look-ups that both count: two different definitions are unknown.
    pub(crate) fn join(self, other: Meaning) -> Meaning
        ensures means { Means result (λ d. (self ≡ Meaning.One d) ⊎ (other ≡ Meaning.One d)) }
        ensures nothing { result ≡ Meaning.Nothing → (self ≡ Meaning.Nothing) × (other ≡ Meaning.Nothing) }
    {
        match (self, other) {
            (Meaning::Nothing, _) => other,
            (_, Meaning::Nothing) => self,
            (Meaning::One(a), Meaning::One(b)) if a == b => self,
            _ => Meaning::Unknown,
        }
    }

    /// Whether this is the same meaning.
    pub(crate) fn same(self, other: Meaning) -> bool
        ensures { result ≡ true → self ≡ other }
    {
        match (self, other) {
            (Meaning::Nothing, Meaning::Nothing) | (Meaning::Unknown, Meaning::Unknown) => true,
            (Meaning::One(one), Meaning::One(other)) => one.is(other),
            _ => false,
        }
    }

    /// Whether it is known to be this definition.
    pub(crate) fn is(self, definition: Definition) -> bool
        ensures { result ≡ true → self ≡ Meaning.One definition }
    {
        match self {
            Meaning::One(one) => one.is(definition),
            _ => false,
        }
    }

    /// Whether there is something of that name, or may be.
    pub(crate) fn is_something(self) -> bool
        ensures { result ≡ is_something self }
    {
        !matches!(self, Meaning::Nothing)
    }
}
