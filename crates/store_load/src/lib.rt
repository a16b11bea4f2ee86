// Loading a store, and whether a store is well formed.
#![tactic(auto)]

pub mod formed;
pub mod header;
pub mod load;
