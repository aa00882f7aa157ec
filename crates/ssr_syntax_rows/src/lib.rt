//! The solid tokens of texts, and the rows of their trees: from those of the parser, which knows nothing of white space and
//! comments, to those of lossless trees.
#![tactic(auto)]

pub mod laws;
pub mod macro_rules;
mod packing;
pub mod preorder;
pub mod solid;
pub mod tree_tokens;
mod turning;
