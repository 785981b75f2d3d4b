// Keys of segments: kinds of key with their order, and the rankers that give each segment its key.
#![tactic(auto)]

pub mod key;
pub mod ranker;
