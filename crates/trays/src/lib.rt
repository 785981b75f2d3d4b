// The trays on a floor: their records, what each call does to them, and what holds after every
// list of calls.
#![tactic(auto)]

pub mod event;
pub mod refusal;
pub mod tray;
pub mod trays;
