// Detours: a way-finder over any other, which sends the trays of some pairs by way of a third
// table.
#![tactic(auto)]

pub mod detour;
pub mod refusal;
pub mod vias;
