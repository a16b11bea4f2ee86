// The input in pieces: bytes are taken as long as the text has room for what the next may print.
ghost use Rattle.std.specs.Prelude.{ℕ, ◌+◌, ◌≤◌, List, length};
ghost use Rattle.rules_sessions.specs.Reading.{Reading, after_byte};
ghost use Rattle.session_dialogue.specs.Standing.{Follows, Feeds, Finishes};

use crate::line::{take_line, take_none};
use crate::part::{has_room, one_more};
use crate::session::Session;
use lines::part::{put_at, stretch};

// What one byte may print at most.
pub const BYTE_ROOM: usize = 12338;
// What the end of the input may print at most.
pub const END_ROOM: usize = 12363;

// The session after a piece of the input, and how many of its bytes were taken.
#[derive(Clone, Copy)]
pub struct Fed {
    pub session: Session,
    pub taken: usize,
}

// One byte of the input: 0A ends a line, any other is one more character of it.
fn take_byte(
    t: &mut [u8],
    store: &mut [u32],
    values: &mut [u32],
    line: &mut [u8],
    b: u8,
    text: &mut [u8],
    s: Session,
) -> Session
    requires { s.at + 12338 ≤ length text.old }
    ensures { ((rd : Reading) (out : List ℕ) → Follows rd out s t.old store.old values.old line.old text.old
        → Follows (after_byte rd b) out result t.new store.new values.new line.new text.new)
        × (result.at ≤ s.at + 12338) }
{
    let length = s.length;
    if b == b'\n' {
        let r = take_line(t, store, values, stretch(line, length), text, s);
        return r.with_line(0);
    }
    let longer = one_more(length, line.len());
    put_at(line, length, b);
    s.with_line(longer)
}

// A piece of the input. What is not taken is to be fed again when the text has been written.
pub fn feed(
    t: &mut [u8],
    store: &mut [u32],
    values: &mut [u32],
    line: &mut [u8],
    piece: &[u8],
    text: &mut [u8],
    start: Session,
) -> Fed
    ensures { Feeds piece.now start result t.old store.old values.old line.old text.old t.new store.new values.new line.new text.new }
{
    let n = piece.len();
    let mut s = start;
    for i in 0..n {
        if !has_room(text, s.at, BYTE_ROOM) {
            return Fed {
                session: s,
                taken: i,
            };
        }
        s = take_byte(t, store, values, line, piece[i], text, s);
    }
    Fed {
        session: s,
        taken: n,
    }
}

// The end of the input: the last line perhaps has no 0A.
pub fn finish(
    t: &mut [u8],
    store: &mut [u32],
    values: &mut [u32],
    line: &[u8],
    text: &mut [u8],
    s: Session,
) -> Session
    requires { s.at + 12363 ≤ length text.old }
    ensures { Finishes s t.old store.old values.old line.now text.old result.at text.new
        × (result.at ≤ s.at + 12363) }
{
    let length = s.length;
    if length == 0 {
        return take_none(t, store, text, s);
    }
    let r = take_line(t, store, values, stretch(line, length), text, s);
    take_none(t, store, text, r)
}
