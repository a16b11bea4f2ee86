// Runs stored sessions, on standard input with their answers, through the functions of the step program, and tells of each whether it prints its answer.
//
// After a session stands `=`, after its answer too, each with a line end. A session that begins `%` has a store of 38 words, and at `#` the store's live flag
// becomes 2: so refusals 5 and 6 come about, which no session can bring about by itself. (second/src/bin/stored.rs writes the input.)
#![tactic(auto)]

ghost use Rattle.std.specs.Prelude.{◌+◌, ◌≤◌, ◌<◌, length};

use lines::part::{put_at, stretch};
use session_dialogue::feeding::{END_ROOM, feed, finish};
use session_dialogue::part::has_room;
use session_dialogue::session::{Buffers, Session};
use std::io::Read;

// The place of the next such mark from `from` on, or the end.
fn next_mark(all: &[u8], mark: u8, from: usize) -> usize
    requires { from ≤ length all.now }
    ensures { (from ≤ result) × (result ≤ length all.now) }
{
    for i in from..all.len() {
        if all[i] == mark {
            return i;
        }
    }
    all.len()
}

// The place after the mark at i and its line end.
fn after_mark(all: &[u8], i: usize) -> usize
    requires { i ≤ length all.now }
    ensures { (result ≤ length all.now) × (i ≤ result) × (i < length all.now → i < result) }
{
    if all.len() - i < 2 {
        return all.len();
    }
    i + 2
}

// The bytes between two places.
fn between(all: &[u8], from: usize, to: usize) -> &[u8] {
    if from <= to && to <= all.len() {
        &all[from..to]
    } else {
        &all[..0]
    }
}

// At a mark, which is one before the end, the live flag becomes 2.
fn spoil_at(store: &mut [u32], to: usize, end: usize) {
    if to < end {
        put_at(store, 5, 2);
    }
}

// The place after a mark, or the end.
fn past(to: usize, end: usize) -> usize
    requires { to ≤ end }
    ensures { (result ≤ end) × (to ≤ result) × (to < end → to < result) }
{
    if to < end { to + 1 } else { end }
}

// The end of a session. Where the text has no room left, nothing happens, and the answer will differ.
fn take_rest<const STORE: usize>(b: &mut Buffers<STORE>, s: Session) -> Session {
    if !has_room(&b.text, s.at, END_ROOM) {
        return s;
    }
    finish(
        &mut b.table,
        &mut b.store,
        &mut b.values,
        &b.line,
        &mut b.text,
        s,
    )
}

// The whole of a session, in pieces: at the mark between two of them the store is spoilt. The answer is how many bytes it printed. Where the text has no room
// left, the rest of a piece is not taken, and the answer will differ.
fn play<const STORE: usize>(b: &mut Buffers<STORE>, input: &[u8]) -> usize {
    let n = input.len();
    let mut s = Session::new();
    let mut from = 0;
    // Stays a `while`: each turn goes to the next mark.
    while from < n {
        let to = next_mark(input, b'#', from);
        let fed = feed(
            &mut b.table,
            &mut b.store,
            &mut b.values,
            &mut b.line,
            between(input, from, to),
            &mut b.text,
            s,
        );
        s = fed.session;
        spoil_at(&mut b.store, to, n);
        from = past(to, n);
    }
    let r = take_rest(b, s);
    r.at
}

// The session with a store of so many words prints this.
fn prints<const STORE: usize>(input: &[u8], answer: &[u8]) -> bool
    requires { STORE ≤ 2000 }
{
    let mut b = Buffers {
        table: [0; 49164],
        store: [0; STORE],
        values: [0; 255],
        line: [0; 25],
        text: [0; 65536],
    };
    let n = play(&mut b, input);
    stretch(&b.text, n) == answer
}

// Tells of session number k whether it printed its answer.
fn tell(rt: &impl Print, k: u64, right: bool) {
    if right {
        let _ = println!(rt; "{k} alike");
    } else {
        let _ = println!(rt; "{k} DIFFERS");
    }
}

// The session with the buffers of the step program, or with a store of 38 words.
fn one(input: &[u8], answer: &[u8]) -> bool {
    match input {
        [b'%', rest @ ..] => prints::<38>(rest, answer),
        _ => prints::<2000>(input, answer),
    }
}

fn total(rt: &impl Print, right: u64, k: u64) {
    let _ = println!(rt; "{right} of {k} sessions print their answers");
}

// Each session with its answer.
fn tell_all(rt: &impl Print, all: &[u8])
    requires { length all.now ≤ 131072 }
{
    let n = all.len();
    let mut from = 0;
    let mut k = 0;
    let mut right = 0;
    // Stays a `while`: each turn goes to the mark after the next.
    while from < n {
        let to = next_mark(all, b'=', from);
        let answer = after_mark(all, to);
        let end = next_mark(all, b'=', answer);
        let is_right = one(between(all, from, to), between(all, answer, end));
        tell(rt, k, is_right);
        right += u64::from(is_right);
        k += 1;
        from = after_mark(all, end);
    }
    total(rt, right, k);
}

// Reads until the room is full, the input ends or a read fails. Answers how many bytes came.
fn read_full<R: Read>(from: &mut R, room: &mut [u8]) -> usize
    ensures { result ≤ length room.new }
{
    let mut done = 0;
    // Stays a `while`: how many bytes a read brings shows only as it goes.
    while done < room.len() {
        let Ok(n) = from.read(&mut room[done..]) else {
            break;
        };
        if n == 0 {
            break;
        }
        done += n;
    }
    done
}

fn main(rt: HostRuntime) {
    let mut room = [0u8; 131072];
    let mut from = rt.reader();
    let n = read_full(&mut from, &mut room);
    tell_all(&rt, stretch(&room, n));
}
