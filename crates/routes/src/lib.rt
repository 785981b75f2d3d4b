// Whether a tray comes from an origin to a destination by a plan, and over how many segments.
#![tactic(auto)]

pub mod refusal;
pub mod route;
