// The store's words by name: one reader and one writer each. No other crate knows a place in the store.
#![tactic(auto)]

pub mod actions;
pub mod due;
pub mod frames;
pub mod network;
pub mod shape;
pub mod word;
