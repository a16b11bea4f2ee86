// The rules of numbers: words and signed values, clipped operations, numbers in bytes. Types and definitions in specs/, laws about them in proofs/laws/. No code.
#![tactic(auto)]

// What an operation tells: its result, and whether that is the true one.
#[derive(Clone, Copy)]
pub struct Outcome {
    pub result: i32,
    pub is_true: bool,
}
