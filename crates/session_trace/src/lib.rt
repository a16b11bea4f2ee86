// What the programs `trace` and `show` print: a piece of a traced run as lines, and a store as text that a person reads.
#![tactic(auto)]

pub mod frames;
pub mod number;
pub mod piece;
pub mod shown;
pub mod words;
