//! Flat syntax trees that lend their texts.
#![tactic(auto)]

mod children;
mod node_rows;
mod number;
mod rows;
mod same;
mod tree;

pub use children::Children;
pub use node_rows::NodeRows;
pub use number::{Element, NodeNo, TokenNo};
pub use rows::NodeRow;
pub use ssr_syntax_kinds::{TokenRow, TokenRows};
pub use tree::Tree;
