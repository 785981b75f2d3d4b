// Worked examples on small stores, proved from the definitions; and plans that the check is there
// to refuse.
#![tactic(auto)]

pub mod lawful;
pub mod table;
#[cfg(test)]
mod tests;
pub mod turning;
