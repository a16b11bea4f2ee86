// Run, advance and arrival, on a store that is well formed for an accepted table.
#![tactic(auto)]

pub mod calls;
pub mod running;
