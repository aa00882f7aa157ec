//! Rules of structural search and replace: rule texts, the kinds of a rule, and what these resolve to.
#![tactic(auto)]

mod constraints;
mod elements;
mod kinds;
mod listed;
mod macro_calls;
mod paths;
mod resolved;
mod rules;
mod sides;
mod stand_ins;
mod tokens;
mod var;

pub use kinds::ParsedRule;
pub use paths::{PathPlace, RulePath};
pub use resolved::{resolve_pattern, resolve_rule};
pub use rules::{ParsedKinds, SsrPattern, SsrRule, pattern_kinds, rule_kinds};
pub use var::Var;
