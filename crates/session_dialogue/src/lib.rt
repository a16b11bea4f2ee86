// The step program without its reading and writing: what a piece of the input changes and prints, and what the end of the input does.
//
// Room in the text: an answer's line has 25 bytes. The lines of a run's records have at most three bytes for each of the 4,096 of its output, two digits and a
// share of the line end: with the answer 12,313. The line that ends the table prints the load's answer before its own: 12,338. So does the end of the input
// after a last line: 12,363.
#![tactic(auto)]

pub mod feeding;
pub mod frame;
pub mod line;
pub mod part;
pub mod session;
pub mod told;
