// The reader of a trace: what it shows of a store, on a store that is long enough for an accepted table.
#![tactic(auto)]

pub mod frame;
pub mod known;
pub mod line;
pub mod show;
