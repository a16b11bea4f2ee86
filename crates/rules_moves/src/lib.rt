// The rules of the moves: types and definitions in specs/, laws about them in proofs/laws/. No code.
#![tactic(auto)]

// The associations that speak for an event output: those of this flag with this event.
#[derive(Clone, Copy)]
pub struct Voice {
    pub flag: usize,
    pub event: usize,
}

// By what a waiting event is chosen: the last update first, then the priority of its element, then its own.
#[derive(Clone, Copy)]
pub struct Key {
    pub last: u32,
    pub priority: usize,
    pub local: usize,
}

// A transition's guard, the five in the order of document 01. d and e are the variables that it compares; the first has none.
#[derive(Clone, Copy)]
pub enum Guard {
    Always,
    Equals(usize, usize),
    Differs(usize, usize),
    Below(usize, usize),
    AtMost(usize, usize),
}

// Which of the six moves comes next, and what it found.
#[derive(Clone, Copy)]
pub enum Next {
    // Move 1: this event input is taken.
    Take(usize),
    // Move 2: this transition is made.
    Change(usize),
    // Move 3: no transition, the block goes idle.
    Idle,
    // Move 4: this step is made.
    Step(usize),
    // Move 5: this action's steps are done.
    End(usize),
    // Move 6: no action is left, back to the chart.
    Back,
    // No move exists.
    Nothing,
}
