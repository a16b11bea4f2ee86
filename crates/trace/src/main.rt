// The program that traces the runs of a session: it reads a session on standard input as the step program does and prints, for each run, the lines of its
// trace, and then an empty line (`session_watch`).
#![tactic(auto)]

use session_watch::{Wish, watch_session};

fn main(rt: HostRuntime) {
    watch_session(&rt, Wish::Trace);
}
