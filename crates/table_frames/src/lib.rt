// The frames of a table: their fields, their counts and places by kind, and the form of each.
#![tactic(auto)]

pub mod form;
pub mod frame;
pub mod frames;
pub mod kind;
pub mod kinds;
pub mod place;
pub mod tally;
