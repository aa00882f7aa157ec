//! What a run of search and replace tells besides diffs: places, matches as text and as JSON, a summary, and a diff in colours.
#![tactic(auto)]

mod colors;
mod json_lines;
mod places;
mod summary;

pub use colors::colored;
pub use json_lines::{Held, MatchReport, NotSearched, match_json, not_searched_json, summary_json};
pub use places::{
    LinePlace, Places, byte_at, line_place, place_line, place_words, undecided_words,
};
pub use summary::{Summary, not_searched_words, summary_line};
