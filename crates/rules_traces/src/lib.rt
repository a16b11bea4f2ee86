// The rules of the trace: types and definitions in specs/, laws about them in proofs/laws/. No code.
#![tactic(auto)]

use rules_calls::Answer;

// The kinds of its frames. They stay numbers: a line of a trace that is read may hold any number there, and what is no kind is told from these (`right_kind`).
pub const CHART_KIND: usize = 0;

pub const INTERNAL_KIND: usize = 1;

pub const INPUT_KIND: usize = 2;

pub const OUTPUT_KIND: usize = 3;

pub const STARTED_KIND: usize = 4;

pub const FINISHED_KIND: usize = 5;

pub const SELECTED_KIND: usize = 6;

pub const EMITTED_KIND: usize = 7;

pub const ENABLED_KIND: usize = 8;

pub const ACTION_KIND: usize = 9;

pub const STEP_KIND: usize = 10;

// A frame of the trace: its kind, the block, the id of a variable, an event or a transition, and the new value.
#[derive(Clone, Copy)]
pub struct Entry {
    pub kind: usize,
    pub block: usize,
    pub id: usize,
    pub value: u32,
}

// What a traced run answers: what a run answers, and the bytes of its trace.
#[derive(Clone, Copy)]
pub struct Traced {
    pub answer: Answer,
    pub traced: usize,
}

// What the reader answers: refused or done, how many frames were read, and the line that ended the reading, from 1, or 0.
#[derive(Clone, Copy)]
pub struct Shown {
    pub answer: Answer,
    pub shown: usize,
    pub line: usize,
}
