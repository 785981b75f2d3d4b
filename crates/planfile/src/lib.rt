// Written plans: a file of blocks, read in place from the caller's bytes, that is a way-finder and
// a ranker.
#![tactic(auto)]

pub mod block;
mod bytes;
mod judge;
pub mod kept;
mod look;
pub mod plan;
pub mod refusal;
