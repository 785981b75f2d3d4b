// The script language: which call the words of a line make.
#![tactic(auto)]

pub mod call;
mod number;
mod parts;
pub mod read;
mod verb;
