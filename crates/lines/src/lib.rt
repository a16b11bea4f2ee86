// Lines of digits: what a line says, and how bytes are printed.
#![tactic(auto)]

pub mod line;
pub mod part;
pub mod text;
