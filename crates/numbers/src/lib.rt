// Numbers: store words and signed values, clipped operations, numbers in bytes.
#![tactic(auto)]

pub mod word; // word.rt: a store word and its signed value; a delay's time in ticks
pub mod clip; // clip.rt: arithmetic on signed values, cut to their range
pub mod operation; // operation.rt: the operations by their number
pub mod bytes; // bytes.rt: numbers in bytes, high byte first
