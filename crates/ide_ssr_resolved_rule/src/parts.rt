//! What a resolved rule is made of.

use crate::constraints::ConstraintSet;
use crate::qualified_calls::QualifiedCall;
use crate::used_paths::UsedPath;
use ssr_syntax_kinds::{Fragment, Reach};
use ssr_syntax_tree::Tree;

/// The parts of a resolved rule.
#[derive(Drop)]
pub struct RuleParts {
    /// The names of the placeholders, without `$`, in the order of the pattern.
    pub names: Vec<String>,
    /// What each of the placeholders asks, in the order of their names.
    pub constraints: Vec<ConstraintSet>,
    /// How much of Rust the trees were read in.
    pub reach: Reach,
    /// What the template was read as, or the pattern, where there is no template.
    pub category: Fragment,
    pub pattern: Tree,
    pub template: Option<Tree>,
    pub pattern_paths: Vec<UsedPath>,
    pub template_paths: Vec<UsedPath>,
    pub qualified_calls: Vec<QualifiedCall>,
    pub eligible_paths: Vec<UsedPath>,
}
