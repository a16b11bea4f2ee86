// What comes out of a case, through the public calls.
ghost use Rattle.std.specs.Prelude.{◌≤◌, ◌≡◌, length};
ghost use Rattle.cases_main.specs.Rows.{Fits};

use crate::data::{Call, Frame, Row, Six, call_at, frame_at};
use calls::{advance, arrival, load, run};
use numbers::bytes::word_at;
use numbers::operation::outcome_words;
use numbers::word::to_word;
use rules_calls::{Answer, Answered, Outcome};
use store_words::word::{due_flag, due_time, next_due, put_untrue, untrue_count};

// ---- The tables

// The bytes of a frame.
fn bytes_of(f: Frame) -> [u8; 12] {
    let [a, b] = f.2.to_be_bytes();
    let [c, d] = f.3.to_be_bytes();
    let [e, g] = f.4.to_be_bytes();
    let [h, i] = f.5.to_be_bytes();
    let [j, k] = f.6.to_be_bytes();
    [f.0, f.1, a, b, c, d, e, g, h, i, j, k]
}

// The bytes of all frames, one after another.
fn tables() -> [u8; 768]
    ensures { length result ≡ 768 }
{
    let mut t = [0u8; 768];
    for i in 0..64 {
        t[12 * i..12 * i + 12].copy_from_slice(&bytes_of(frame_at(i)));
    }
    t
}

// ---- The calls

// A run where word 11 holds the call's value.
fn run_from(t: &[u8], store: &mut [u32], out: &mut [u8], call: Call) -> Answer {
    put_untrue(store, call.2);
    run(t, store, call.1, out)
}

// Makes a call. Where there is none to make, the answer is still that of the call before.
fn make(t: &[u8], store: &mut [u32], out: &mut [u8], call: Call, before: Answer) -> Answer {
    let value = [call.2; 1];
    match call.0 {
        0 => before,
        1 => load(t, store),
        2 => advance(t, store, call.1),
        3 => arrival(t, store, call.2 as usize, call.1, &value[..0]),
        4 => arrival(t, store, 0, call.1, &value),
        5 => run(t, store, call.1, out),
        _ => run_from(t, store, out, call),
    }
}

// Makes the calls from one to another, and then the case's own.
fn make_all(
    t: &[u8],
    store: &mut [u32],
    out: &mut [u8],
    from: usize,
    to: usize,
    own: Call,
) -> Answer
    requires { to ≤ 35 }
{
    let mut answer: Answer = Ok(Outcome::Done);
    for i in from..to {
        answer = make(t, store, out, call_at(i), answer);
    }
    make(t, store, out, own, answer)
}

// ---- What is asked

// Refusal, frame, moves, stop number, bytes, untrue steps.
fn answered(answer: Answer) -> Six {
    Six(
        answer.number() as u64,
        answer.frame() as u64,
        u64::from(answer.moves()),
        u64::from(answer.stop()),
        answer.bytes() as u64,
        u64::from(answer.untrue()),
    )
}

// The first record of the output: element and event input, birth, last update, now, a value.
fn recorded(out: &[u8; 4096]) -> Six {
    Six(
        u64::from(word_at(out, 0)),
        u64::from(word_at(out, 4)),
        u64::from(word_at(out, 8)),
        u64::from(word_at(out, 12)),
        u64::from(word_at(out, 16)),
        0,
    )
}

// Due flag and due time of element 1, and the next due time.
fn due(store: &[u32; 41]) -> Six {
    let next = next_due(store);
    Six(
        u64::from(due_flag(store, 1)),
        u64::from(due_time(store, 1)),
        u64::from(next.due),
        u64::from(next.time),
        0,
        0,
    )
}

// The untrue steps that a run tells, and word 11 after it.
fn counted(answer: Answer, store: &[u32; 41]) -> Six {
    Six(
        u64::from(answer.untrue()),
        u64::from(untrue_count(store)),
        0,
        0,
        0,
        0,
    )
}

// The result of an operation, and 1 where it is the true one.
fn result(op: usize, b: u32, c: u32) -> Six {
    let told = outcome_words(op, b, c, 0);
    Six(
        u64::from(to_word(told.result)),
        u64::from(told.is_true),
        0,
        0,
        0,
        0,
    )
}

// What comes out of a case on its table.
fn outcome_on(t: &[u8], row: Row) -> Six
    requires { Fits row }
{
    let mut store = [7u32; 41];
    let mut out = [0u8; 4096];
    let words = row.2;
    let room = row.3;
    let answer = make_all(
        t,
        &mut store[..words],
        &mut out[..room],
        row.4,
        row.5,
        Call(row.6, row.7, row.8),
    );
    match row.0 {
        0 => answered(answer),
        1 => recorded(&out),
        2 => due(&store),
        _ => counted(answer, &store),
    }
}

// What comes out of a case.
pub fn outcome(row: Row) -> Six
    requires { Fits row }
{
    if row.0 == 4 {
        return result(row.6, row.7, row.8);
    }
    let t = tables();
    match row.1 {
        0 => outcome_on(&t[..300], row),
        1 => outcome_on(&t[..312], row),
        2 => outcome_on(&t[312..468], row),
        3 => outcome_on(&t[468..672], row),
        _ => outcome_on(&t[672..], row),
    }
}
