// The program that shows chart states and values after some frames of the trace of a run: show RUN FRAMES, the runs of the session counted from 1. It reads the
// session on standard input as the step program does and makes that run on a copy of the store; the store itself then reads the trace that comes of it, and
// shows (`session_watch`). More frames than there are show the last.
#![tactic(auto)]

use session_trace::number::number_in;
use session_watch::{Wish, watch_session};
use std::env::{Env, FillError};

// The number that argument i writes; a longer one than the buffer is not a number.
fn argument(rt: &impl Env, i: usize) -> Option<usize> {
    let mut word = [0u8; 32];
    let n = rt.arg(i, &mut word).ok()?;
    number_in(&word[..n])
}

// There is an argument i, however long.
fn has_argument(rt: &impl Env, i: usize) -> bool {
    let mut word = [0u8; 32];
    match rt.arg(i, &mut word) {
        Ok(_) => true,
        Err(FillError::TooLong) => true,
        Err(FillError::NotPresent) => false,
    }
}

// What is wrong with the arguments.
fn refuse(rt: &impl Eprint) {
    let _ = rt.eprintln(
        "show: usage: show RUN FRAMES: the run from 1, each 1 to 18 decimal digits; the session is read from standard input",
    );
}

fn main(rt: HostRuntime) {
    if !has_argument(&rt, 2) || has_argument(&rt, 3) {
        refuse(&rt);
        return;
    }
    let (Some(run), Some(frames)) = (argument(&rt, 1), argument(&rt, 2)) else {
        refuse(&rt);
        return;
    };
    if run == 0 {
        refuse(&rt);
        return;
    }
    watch_session(&rt, Wish::Show { run, frames });
}
