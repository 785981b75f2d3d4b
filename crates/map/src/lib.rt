// The map of a floor: its tables and segments, what of them is closed, and which tables are stops.
#![tactic(auto)]

pub mod map;
pub mod refusal;
pub mod side;
pub mod size;
