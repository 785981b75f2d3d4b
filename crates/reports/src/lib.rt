// What is shown of a script: the picture of its store, and the account at its end.
#![tactic(auto)]

pub mod account;
pub mod picture;
