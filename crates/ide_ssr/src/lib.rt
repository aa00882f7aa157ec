//! Structural search and replace.
#![tactic(auto)]

mod comments;
mod debugging;
mod finder;
mod flattened;
mod from_comment;
pub mod laws;
mod made;
mod matches;
mod nesting;
mod parts;
mod shown;
mod starts;

pub use finder::MatchFinder;
pub use from_comment::ssr_from_comment;
pub use ide_ssr_debugging::MatchDebugInfo;
pub use ide_ssr_edited::EditedError;
pub use ide_ssr_matching::Tries;
pub use ide_ssr_refusals::SsrError;
pub use ide_ssr_rewriting::EditError;
pub use ide_ssr_rules::{SsrPattern, SsrRule, Var};
pub use ide_ssr_token_trees::PatternIterator;
pub use matches::{Match, PlaceholderMatch, SsrMatches};
