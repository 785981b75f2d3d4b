// The tree plan of a map: a way-finder and its ranker.
#![tactic(auto)]

mod growth;
mod near;
pub mod tree;
mod upward;
