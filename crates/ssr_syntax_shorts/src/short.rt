//! Texts kept short.
ghost use Rattle.std.specs.Prelude.{◌≡◌, ◌++◌, [], ◌∷◌, OnOk, IfOk, IfSome, map};
ghost use Rattle.ssr_syntax_shorts.specs.Shorts.{IsReadOf, IsShort, as_it_is, in_parentheses, joined, moved};

use crate::reading::{ShortTree, read};
use crate::stand_ins::{Name, moved};
use ssr_syntax::Reach;
use std::alloc::{AllocError, Global};
use std::marker::Model;

/// A text with names in the place of what stands in some of its parentheses, and how deep the trees are at most of what they
/// stand for. `IsShort` says of which long text it is.
#[derive(Drop)]
pub struct Short {
    text: String,
    names: Vec<Name>,
    depth: u32,
}

impl Model for Short {
    ghost use Rattle.std.specs.Prelude.{string_bytes};
    ghost use Rattle.ssr_syntax_shorts.specs.Shorts.{ShortText};

    ghost Value = { ShortText };

    ghost view = { λ short. record { text = string_bytes short.text; names = short.names.items; depth = short.depth } };
}

impl Short {
    /// A text as it is.
    pub fn of(alloc: Global, text: &str) -> Result<Short, AllocError>
        ensures { IfOk result (λ short. short ≡ as_it_is text.now) }
    {
        let text = String::from_str(alloc, text)?;
        Ok(Short {
            text,
            names: Vec::new(alloc),
            depth: 0,
        })
    }

    /// The short text.
    pub fn text(&self) -> &str
        ensures { result.now ≡ self.now.text }
    {
        self.text.as_str()
    }

    /// Its names, in order.
    pub fn names(&self) -> &[Name]
        ensures { result.now ≡ self.now.names }
    {
        self.names.as_slice()
    }

    /// How deep the trees are at most of what the names stand for.
    pub(crate) fn depth(&self) -> u32
        ensures { result ≡ self.now.depth }
    {
        self.depth
    }

    /// Reads it as an expression, in the place of the long text. Nothing where that doesn't tell the long text's tree.
    pub fn read(
        &self,
        alloc: Global,
        reach: Reach,
        long: &str,
    ) -> Result<Option<ShortTree<'_>>, AllocError>
        ensures read { IfOk result (λ answer. IfSome answer (λ read. IsShort reach self.now long.now → IsReadOf reach read long.now)) }
        ensures names { IfOk result (λ answer. IfSome answer (λ read. read.names ≡ self.now.names)) }
    {
        read(alloc, reach, self, long)
    }

    /// Pushes a text as it is.
    pub fn push_str(&mut self, text: &str) -> Result<(), AllocError>
        ensures { OnOk result (self.new ≡ joined self.old (as_it_is text.now)) }
    {
        self.text.push_str(text)
    }

    /// Pushes another one.
    pub fn push(&mut self, other: &Short) -> Result<(), AllocError>
        ensures { OnOk result (self.new ≡ joined self.old other.now) }
    {
        let count = self.text.len();
        self.text.push_str(other.text.as_str())?;
        push_names(&mut self.names, other.names.as_slice(), count)?;
        self.depth = self.depth.max(other.depth);
        Ok(())
    }

    /// Pushes a name in parentheses, which stands for a text that was read.
    pub fn push_in_parentheses(&mut self, inside: &ShortTree<'_>) -> Result<(), AllocError>
        ensures { OnOk result (self.new ≡ joined self.old (in_parentheses inside.now.bytes inside.now.depth)) }
    {
        let name = Name {
            at: 1,
            bytes: inside.bytes(),
        };
        let count = self.text.len();
        self.text.push_str("(x)")?;
        push_name(&mut self.names, name, count)?;
        self.depth = self.depth.max(inside.depth());
        Ok(())
    }
}

/// Pushes a name so many bytes further on.
fn push_name(names: &mut Vec<Name>, name: Name, count: usize) -> Result<(), AllocError>
    ensures { OnOk result (names.new.items ≡ names.old.items ++ map (moved count) (name ∷ [])) }
{
    let Some(far) = moved(name, count) else {
        return Err(AllocError);
    };
    names.push(far)?;
    Ok(())
}

/// Pushes names so many bytes further on.
fn push_names(names: &mut Vec<Name>, others: &[Name], count: usize) -> Result<(), AllocError>
    ensures { OnOk result (names.new.items ≡ names.old.items ++ map (moved count) others.now) }
{
    for name in others {
        push_name(names, *name, count)?;
    }
    Ok(())
}
