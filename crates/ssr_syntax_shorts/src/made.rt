//! Texts that are made, each beside the short one that stands for it.
ghost use Rattle.std.specs.Prelude.{◌≡◌, ◌++◌, [], IfOk, IfSome, OnOk, string_bytes};
ghost use Rattle.ssr_syntax_shorts.specs.Made.{text_of, unless_tight};
ghost use Rattle.ssr_syntax_shorts.specs.Shorts.{IsShort};

use crate::parts::Part;
use crate::short::Short;
use ssr_syntax::Reach;
use std::alloc::{AllocError, Global};
use std::marker::Model;

/// A text, and the short one that stands for it in a reach, if one is known: else it is its own.
#[derive(Drop)]
pub struct MadeText {
    reach: Reach,
    text: String,
    short: Option<Short>,
}

impl Model for MadeText {
    ghost use Rattle.std.specs.Prelude.{IfSome, List, ℕ, string_bytes};
    ghost use Rattle.ssr_syntax_shorts.specs.Shorts.{IsShort};

    ghost Value = { List ℕ };

    ghost view = { λ made. string_bytes made.text };

    ghost invariant = { λ made. IfSome made.short (λ short. IsShort made.reach short (string_bytes made.text)) };
}

impl MadeText {
    /// A text that is its own short one.
    pub fn new(reach: Reach, text: String) -> MadeText
        ensures { result ≡ string_bytes text }
    {
        MadeText {
            reach,
            text,
            short: None,
        }
    }

    /// No text, beside a short one that is as empty.
    pub(crate) fn empty(alloc: Global, reach: Reach) -> Result<MadeText, AllocError>
        ensures { IfOk result (λ made. made ≡ []) }
    {
        let short = Short::of(alloc, "")?;
        Ok(MadeText {
            reach,
            text: String::new(alloc),
            short: Some(short),
        })
    }

    /// The text.
    pub fn as_str(&self) -> &str
        ensures { result.now ≡ self.now }
    {
        self.text.as_str()
    }

    /// The text alone.
    pub fn into_string(self) -> String
        ensures { string_bytes result ≡ self }
    {
        let MadeText { text, .. } = self;
        text
    }

    /// Adds a text as it is.
    pub fn push_str(&mut self, text: &str) -> Result<(), AllocError>
        ensures { OnOk result (self.new ≡ self.old ++ text.now) }
    {
        let short = self.short.take();
        self.text.push_str(text)?;
        if let Some(mut short) = short {
            short.push_str(text)?;
            self.short = Some(short);
        }
        Ok(())
    }

    /// The short text that stands for it in a reach, if one is known.
    pub(crate) fn short_in(&self, reach: Reach) -> Option<&Short>
        ensures { IfSome result (λ short. IsShort reach short.now self.now) }
    {
        if self.reach.is_whole() == reach.is_whole() {
            self.short.as_ref()
        } else {
            None
        }
    }

    /// Adds a part, in parentheses if it is loose.
    pub(crate) fn push(
        &mut self,
        alloc: Global,
        part: &Part<'_>,
        loose: bool,
    ) -> Result<(), AllocError>
        ensures { OnOk result (self.new ≡ self.old ++ unless_tight loose (text_of part.now)) }
    {
        let short = self.short.take();
        push_text(&mut self.text, part.as_str(), loose)?;
        if let Some(mut short) = short {
            part.push_unless_tight(alloc, self.reach, loose, &mut short)?;
            self.short = Some(short);
        }
        Ok(())
    }
}

/// Adds a text, in parentheses if it is loose.
fn push_text(text: &mut String, more: &str, loose: bool) -> Result<(), AllocError>
    ensures { OnOk result (string_bytes text.new ≡ string_bytes text.old ++ unless_tight loose more.now) }
{
    if loose {
        text.push_str("(")?;
        text.push_str(more)?;
        return text.push_str(")");
    }
    text.push_str(more)
}
