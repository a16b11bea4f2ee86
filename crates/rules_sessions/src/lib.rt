// The rules of the step program: types and definitions in specs/, laws about them in proofs/laws/. No code.
#![tactic(auto)]

#[derive(Clone, Copy)]
pub enum Command {
    // A line of any other form.
    Wrong,
    // To this time.
    Advance(u32),
    // So many values to follow, the event, its birth.
    Arrival(usize, usize, u32),
    // A value of an arrival, in two's complement.
    Value(u32),
    // With this budget.
    Run(u32),
}
