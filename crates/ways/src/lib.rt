// Way-finders: which way a tray goes from a table towards its destination.
#![tactic(auto)]

pub mod finder;
pub mod rows;
