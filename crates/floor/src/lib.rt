// A floor of trays over a map and any way-finder.
#![tactic(auto)]

pub mod floor;
