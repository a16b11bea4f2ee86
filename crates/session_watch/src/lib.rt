// The programs `trace` and `show`: both read a session on standard input as the step program does, and watch for its runs. Before the session takes a line that
// asks for a run, that run is made on a copy of the store, and what it did is written. What the pieces of a run change and print is proved in `session_trace`, and
// the session goes on as that of the step program does (`session_dialogue`), with its text thrown away; here bytes are read and text is written.
#![tactic(auto)]

ghost use Rattle.std.specs.Prelude.{◌≡◌, ◌+◌};

pub mod asked;

use crate::asked::{line_asks, opened};
use lines::part::stretch;
use rules_calls::Answered;
use session_dialogue::feeding::feed;
use session_dialogue::session::{Buffers, Session};
use session_trace::piece::{goes_on, put_store, show_piece, trace_piece};
use std::io;
use std::io::Read;

// What is wished of the runs that are to come.
#[derive(Clone, Copy)]
pub enum Wish {
    // The lines of its trace, and then an empty line: of every run.
    Trace,
    // Chart states and values after at most so many frames: of one run of those to come, counted from 1.
    Show { run: usize, frames: usize },
}

// The output buffer of a run has 4,096 bytes.
const OUTPUT: usize = 4096;

// The frames of a piece, 400 of them: their lines have 10,000 bytes.
const TRACE: usize = 4800;

// A session that goes on, and what is wished for. No text of it waits: what it prints is thrown away.
#[derive(Clone, Copy)]
struct Sought {
    session: Session,
    wish: Wish,
    ghost silent: { session.at ≡ 0 },
}

// Makes a run piece by piece and writes the lines of each, then an empty line.
fn trace_run(
    rt: &impl Print,
    t: &[u8],
    store: &mut [u32],
    budget: u32,
    text: &mut [u8; 65536],
) -> io::Result<()> {
    let mut out = [0u8; OUTPUT];
    let mut trace = [0u8; TRACE];
    let mut left = budget;
    let mut from = 0;
    // Stays a loop: how many pieces a run has shows only as it goes.
    loop {
        let p = trace_piece(t, store, left, &mut out[from..], &mut trace, text);
        rt.write_all(stretch(text, p.at))?;
        let traced = p.traced;
        let a = traced.answer;
        if !goes_on(a) {
            return rt.write_all(b"\n");
        }
        left -= a.moves();
        from += a.bytes();
    }
}

// Makes a run piece by piece; the shown store reads at most so many of its frames. Answers how many it read.
fn show_run(
    t: &[u8],
    store: &mut [u32],
    budget: u32,
    text: &mut [u8; 65536],
    shown: &mut [u32],
    frames: usize,
) -> usize {
    let mut out = [0u8; OUTPUT];
    let mut trace = [0u8; TRACE];
    let mut left = budget;
    let mut from = 0;
    let mut seen = 0;
    // Stays a loop: how many pieces a run has shows only as it goes.
    loop {
        let p = show_piece(
            t,
            store,
            left,
            &mut out[from..],
            &mut trace,
            text,
            shown,
            frames - seen,
        );
        let read = p.shown;
        seen += read.shown;
        let piece = p.piece;
        let traced = piece.traced;
        let a = traced.answer;
        if !goes_on(a) {
            return seen;
        }
        left -= a.moves();
        from += a.bytes();
    }
}

// The run that is wished for: what it shows is written. The session ends with it, so its own store is the one that shows: first it is as the run finds it.
fn show_last(
    rt: &impl Print,
    b: &mut Buffers<2000>,
    copy: &mut [u32; 2000],
    end: usize,
    budget: u32,
    frames: usize,
) {
    b.store.copy_from_slice(copy);
    let t = stretch(&b.table, end);
    let seen = show_run(t, copy, budget, &mut b.text, &mut b.store, frames);
    let at = put_store(t, &b.store, seen, &mut b.text);
    let _ = rt.write_all(stretch(&b.text, at));
}

// A run from the copy of the store. Answers what is then wished for, if a run is to come. A trace leaves the store as it is, and the session goes on with it,
// unless a write fails; of the runs to show, those before the last are passed by.
fn watch_run(
    rt: &impl Print,
    b: &mut Buffers<2000>,
    copy: &mut [u32; 2000],
    end: usize,
    budget: u32,
    wish: Wish,
) -> Option<Wish> {
    match wish {
        Wish::Trace => {
            trace_run(rt, stretch(&b.table, end), copy, budget, &mut b.text).ok()?;
            Some(wish)
        }
        Wish::Show { run, frames } => {
            if run > 1 {
                return Some(Wish::Show {
                    run: run - 1,
                    frames,
                });
            }
            show_last(rt, b, copy, end, budget, frames);
            None
        }
    }
}

// A byte before the session takes it: where it ends a line, the line is watched. Answers what is then wished for, if a run is to come.
fn watch_byte(
    rt: &impl Print,
    b: &mut Buffers<2000>,
    copy: &mut [u32; 2000],
    byte: u8,
    s: Sought,
) -> Option<Wish> {
    if byte != b'\n' {
        return Some(s.wish);
    }
    copy.copy_from_slice(&b.store);
    let session = s.session;
    let whole = stretch(&b.line, session.length);
    let here = opened(&b.table, copy, whole, &mut b.text, session);
    match line_asks(whole, here) {
        Some(budget) => watch_run(rt, b, copy, here.end, budget, s.wish),
        None => Some(s.wish),
    }
}

// One byte of the input, and what it ends: the session goes on. Answers None where it has stopped or no run is to come. A call for each byte would cost more than
// the byte, and so would a session that is handed on: this and `take_all` are each called from one place, so that the compiler builds them into the loop, and the
// session is changed where it lies.
fn take_byte(
    rt: &impl Print,
    b: &mut Buffers<2000>,
    copy: &mut [u32; 2000],
    byte: u8,
    s: &mut Sought,
) -> Option<()> {
    let wish = watch_byte(rt, b, copy, byte, *s)?;
    let fed = feed(
        &mut b.table,
        &mut b.store,
        &mut b.values,
        &mut b.line,
        &[byte],
        &mut b.text,
        s.session,
    );
    let session = fed.session.written();
    *s = Sought { session, wish };
    if session.stopped() {
        return None;
    }
    Some(())
}

// The bytes that were read, one by one, up to the last that is wanted.
fn take_all(
    rt: &impl Print,
    b: &mut Buffers<2000>,
    copy: &mut [u32; 2000],
    input: &[u8],
    s: &mut Sought,
) -> Option<()> {
    for byte in input {
        take_byte(rt, b, copy, *byte, s)?;
    }
    Some(())
}

// Reads once. The search ends where the input does, and where a read fails. The last line perhaps has no 0A: it gets one, as if it had been read.
fn read_some<R: Read>(
    rt: &impl Print,
    from: &mut R,
    b: &mut Buffers<2000>,
    copy: &mut [u32; 2000],
    input: &mut [u8],
    s: &mut Sought,
) -> Option<()> {
    let n = from.read(input).ok()?;
    let piece = if n == 0 { b"\n" } else { stretch(input, n) };
    take_all(rt, b, copy, piece, s)?;
    if n == 0 { None } else { Some(()) }
}

// Reads until no run is to come or the session stops. A proved loop has to end, and nothing says that the input does: so it counts its turns, up to a number
// that no run uses up.
fn read_all<R: Read>(
    rt: &impl Print,
    from: &mut R,
    b: &mut Buffers<2000>,
    copy: &mut [u32; 2000],
    input: &mut [u8],
    wish: Wish,
) {
    let mut s = Sought {
        session: Session::new(),
        wish,
    };
    for _ in 0..u64::MAX {
        if read_some(rt, from, b, copy, input, &mut s).is_none() {
            return;
        }
    }
}

// Watches the session on standard input.
pub fn watch_session(rt: &(impl Input + Print), wish: Wish) {
    // The text has room for the lines of a piece, for what the session prints of a line, and for what a store shows.
    let mut b = Buffers {
        table: [0; 49164],
        store: [0; 2000],
        values: [0; 255],
        line: [0; 25],
        text: [0; 65536],
    };
    let mut copy = [0u32; 2000];
    let mut input = [0u8; 65536];
    let mut from = rt.reader();
    read_all(rt, &mut from, &mut b, &mut copy, &mut input, wish);
}
