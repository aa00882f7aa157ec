//! Tests of what no scenario of `ssr_scenarios` can say in a text: values that are handed in, and what there isn't. They stand
//! in a crate of their own, above what they try: a crate with tests is proved twice.
#![tactic(auto)]

#[cfg(test)]
mod edits;
#[cfg(test)]
mod facts;
#[cfg(test)]
mod fitting;
#[cfg(test)]
mod order;
#[cfg(test)]
mod parser;
#[cfg(test)]
mod pattern_iterator;
#[cfg(test)]
mod resolving;
#[cfg(test)]
mod rules;
#[cfg(test)]
mod shorts;
#[cfg(test)]
mod standing;
#[cfg(test)]
mod trees;
#[cfg(test)]
mod workspaces;
