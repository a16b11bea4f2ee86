// The index of a table: where the frames of an owner are. A move follows it instead of looking at all frames of a kind. It is made anew in each call, in one
// pass over the frames of each kind, in a list of 16-bit numbers that the call has on its stack.
#![tactic(auto)]

pub mod actions;
pub mod chain;
pub mod index;
pub mod indexed;
pub mod pair;
pub mod read;
pub mod walk;
