// The lines of the step program: what a line asks for, and how answers and records are printed.
#![tactic(auto)]

pub mod answer;
pub mod command;
pub mod record;
