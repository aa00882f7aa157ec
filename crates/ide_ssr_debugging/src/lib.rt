//! What is told of nodes of the code and of rules, to debug the rules: which nodes a snippet shows, and whether rules match there.
#![tactic(auto)]

mod entries;
mod expressions;
mod order;
mod reasons;
mod shown;

pub use entries::{MatchDebugInfo, debug_where_text_equal};
pub use expressions::is_expression;
