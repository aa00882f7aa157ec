//! What the placeholders of a pattern bind, where that is recorded at all.

ghost use Rattle.std.specs.Prelude.{◌≡◌, ◌∷◌, ◌++◌, [], Some, None, OnOk, map, option_map};
ghost use Rattle.ide_ssr_bindings.specs.Receivers.{received};
ghost use Rattle.ide_ssr_token_trees.specs.Recording.{emptied, recorded, recorded_with};

use ide_ssr_bindings::{Binding, Receiver};
use std::alloc::{AllocError, Global};
use std::marker::Model;

/// What placeholders bind, if it is recorded: else nothing is kept, and nothing is allocated.
#[derive(Drop)]
pub struct Record {
    bound: Option<Vec<Binding>>,
}

impl Model for Record {
    ghost use Rattle.std.specs.Prelude.{option_map};
    ghost use Rattle.ide_ssr_token_trees.specs.Recording.{Recorded};

    ghost Value = { Recorded };

    ghost view = { λ kept. option_map (λ bound. bound.items) kept.bound };
}

/// Adds what placeholders bind to `out`: one that holds the receiver keeps how it is taken.
fn push_received(
    receiver: Receiver,
    held: &[Binding],
    out: &mut Vec<Binding>,
) -> Result<(), AllocError>
    ensures { OnOk result (out.new.items ≡ out.old.items ++ map (received receiver) held.now) }
{
    for binding in held {
        out.push(receiver.received(*binding))?;
    }
    Ok(())
}

impl Record {
    /// Nothing is recorded.
    pub fn none() -> Record
        ensures { result ≡ None }
    {
        Record { bound: None }
    }

    /// What is bound is recorded, and so far nothing is.
    pub fn new(alloc: Global) -> Record
        ensures { result ≡ Some [] }
    {
        Record {
            bound: Some(Vec::new(alloc)),
        }
    }

    /// A record without bindings that keeps them where this one does.
    pub fn empty(&self, alloc: Global) -> Record
        ensures { result ≡ emptied self.now }
    {
        match self.bound {
            Some(_) => Record::new(alloc),
            None => Record::none(),
        }
    }

    /// Adds a binding.
    pub fn add(&mut self, binding: Binding) -> Result<(), AllocError>
        ensures { OnOk result (self.new ≡ recorded self.old (binding ∷ [])) }
    {
        if let Some(bound) = &mut self.bound {
            bound.push(binding)?;
        }
        Ok(())
    }

    /// Adds the bindings of a method call whose receiver this is: one that holds it keeps how it is taken.
    pub fn keep(&mut self, receiver: Receiver, held: &Record) -> Result<(), AllocError>
        ensures { OnOk result (self.new ≡ recorded_with receiver self.old held.now) }
    {
        let Some(held) = &held.bound else {
            return Ok(());
        };
        match &mut self.bound {
            Some(bound) => push_received(receiver, held, bound),
            None => Ok(()),
        }
    }

    /// The bindings, if they were recorded.
    pub fn into_bound(self) -> Option<Vec<Binding>>
        ensures { option_map (λ bound. bound.items) result ≡ self }
    {
        self.bound
    }
}
