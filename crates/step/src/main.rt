// The step program: reads a session on standard input and prints what it answers. What the pieces of the input change and print is proved in `session_dialogue`; here
// they are read and the text is written, both in large pieces.
#![tactic(auto)]

ghost use Rattle.std.specs.Prelude.{ℕ, ◌+◌, ◌≤◌, ◌≡◌, List, IfOk};
ghost use Rattle.rules_sessions.specs.Reading.{Reading, after_bytes};
ghost use Rattle.session_dialogue.specs.Standing.{KeepsUp};

use lines::part::stretch;
use session_dialogue::feeding::{END_ROOM, feed, finish};
use session_dialogue::part::has_room;
use session_dialogue::session::{Buffers, Session};
use std::io;
use std::io::Read;

// Writes the text that waits.
fn flush(rt: &impl Print, text: &[u8], s: Session) -> io::Result<Session>
    ensures { IfOk result (λ r. (r.phase ≡ s.phase) × (r.end ≡ s.end) × (r.length ≡ s.length) × (r.at ≡ 0)) }
{
    rt.write_all(stretch(text, s.at))?;
    Ok(s.written())
}

// Room for what the next byte or the end of the input may print.
fn make_room(rt: &impl Print, text: &[u8; 65536], s: Session) -> io::Result<Session>
    ensures { IfOk result (λ r. (r.at + 12363 ≤ 65536)
        × ((rd : Reading) (t st W line : List ℕ) → KeepsUp rd s t st W line text.now → KeepsUp rd r t st W line text.now)) }
{
    if has_room(text, s.at, END_ROOM) {
        return Ok(s);
    }
    flush(rt, text, s)
}

// The bytes that were read, each once: as many as the text has room for, then the text is written, and so on. A write that fails ends it.
fn take_all(
    rt: &impl Print,
    b: &mut Buffers<2000>,
    input: &[u8],
    start: Session,
) -> io::Result<Session>
    requires { start.at + 12363 ≤ 65536 }
    ensures { IfOk result (λ r. (r.at + 12363 ≤ 65536)
        × ((rd : Reading) → KeepsUp rd start b.old.table b.old.store b.old.values b.old.line b.old.text
        → KeepsUp (after_bytes rd input.now) r b.new.table b.new.store b.new.values b.new.line b.new.text)) }
{
    let mut s = start;
    let mut from = 0;
    // Stays a `while`: how many bytes a turn takes shows only as it goes.
    while from < input.len() {
        let fed = feed(
            &mut b.table,
            &mut b.store,
            &mut b.values,
            &mut b.line,
            &input[from..],
            &mut b.text,
            s,
        );
        from += fed.taken;
        s = make_room(rt, &b.text, fed.session)?;
    }
    Ok(s)
}

// The end of the input.
fn take_last(rt: &impl Print, b: &mut Buffers<2000>, s: Session) -> io::Result<Session>
    requires { s.at + 12363 ≤ 65536 }
    ensures { IfOk result (λ r. r.at + 12363 ≤ 65536) }
{
    let last = finish(
        &mut b.table,
        &mut b.store,
        &mut b.values,
        &b.line,
        &mut b.text,
        s,
    );
    let written = make_room(rt, &b.text, last)?;
    Ok(written.ended())
}

// Reads once and takes what came. The session stops where the input ends, and where a read fails.
fn read_some<R: Read>(
    rt: &impl Print,
    from: &mut R,
    b: &mut Buffers<2000>,
    input: &mut [u8],
    s: Session,
) -> io::Result<Session>
    requires { s.at + 12363 ≤ 65536 }
    ensures { IfOk result (λ r. r.at + 12363 ≤ 65536) }
{
    match from.read(input) {
        Ok(0) => take_last(rt, b, s),
        Ok(n) => take_all(rt, b, stretch(input, n), s),
        Err(_) => Ok(s.ended()),
    }
}

// Reads until the session stops. A proved loop has to end, and nothing says that the input does: so it counts its turns, up to a number that no run uses up.
fn read_all<R: Read>(
    rt: &impl Print,
    from: &mut R,
    b: &mut Buffers<2000>,
    input: &mut [u8],
) -> io::Result<Session> {
    let mut s = Session::new();
    for _ in 0..u64::MAX {
        if s.stopped() {
            break;
        }
        s = read_some(rt, from, b, input, s)?;
    }
    Ok(s)
}

// Where a write fails, the program ends without a word.
fn run(rt: &(impl Input + Print)) -> io::Result<()> {
    let mut b = Buffers {
        table: [0; 49164],
        store: [0; 2000],
        values: [0; 255],
        line: [0; 25],
        text: [0; 65536],
    };
    let mut input = [0u8; 65536];
    let mut from = rt.reader();
    let s = read_all(rt, &mut from, &mut b, &mut input)?;
    flush(rt, &b.text, s)?;
    Ok(())
}

fn main(rt: HostRuntime) {
    let _ = run(&rt);
}
