// Blocks of bytes, and the sum of their words.
#![tactic(auto)]

pub mod sum;
