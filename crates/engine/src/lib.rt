// A script, call by call: the store that it describes, what each call answers, and what it leaves.
#![tactic(auto)]

pub mod finder;
pub mod outcome;
pub mod plan;
pub mod session;
pub mod store;
pub mod tally;
