//! How matches are shown to whoever looks for a mistake, a text without a promise. Of the matches in a placeholder it tells how
//! many there are: they can nest deeper than the stack.

use crate::matches::{Match, PlaceholderMatch, SsrMatches};
use std::fmt;

impl fmt::Debug for SsrMatches<'_> {
    fn fmt<W: fmt::Write>(&self, f: &mut fmt::Formatter<W>) -> fmt::Result {
        f.debug_tuple("SsrMatches").field(&self.matches).finish()
    }
}

impl fmt::Debug for Match<'_> {
    fn fmt<W: fmt::Write>(&self, f: &mut fmt::Formatter<W>) -> fmt::Result {
        f.debug_struct("Match")
            .field("text", &self.text)
            .field("range", &self.range)
            .field("rule_index", &self.rule_index)
            .field("placeholders", &self.placeholders)
            .field("comments", &self.comments)
            .finish()
    }
}

impl fmt::Debug for PlaceholderMatch<'_> {
    fn fmt<W: fmt::Write>(&self, f: &mut fmt::Formatter<W>) -> fmt::Result {
        f.debug_struct("PlaceholderMatch")
            .field("var", &self.var)
            .field("range", &self.range)
            .field("deref_count", &self.deref_count)
            .field("self_kind", &self.self_kind)
            .field("inner", &self.inner.len())
            .finish()
    }
}
