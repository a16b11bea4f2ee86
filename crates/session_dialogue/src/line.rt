// A line of the input, and its end.
ghost use Rattle.std.specs.Prelude.{ℕ, ◌+◌, ◌≤◌, List, length};
ghost use Rattle.rules_sessions.specs.Session.{Stage, tabled, load_deed, and_then, judged_line, line_deed, end_deed};
ghost use Rattle.session_dialogue.specs.Standing.{Tabled, InTable, Stands, Took, Calm};

use crate::frame::table_line;
use crate::session::{Phase, Session};
use crate::told::{call_line, malformed, tell_load, value_line};
use lines::line::opens;

// The first line beginning 80 to 83: the table is loaded, and then the line is judged.
fn opening_line(
    t: &[u8],
    store: &mut [u32],
    values: &[u32],
    line: &[u8],
    text: &mut [u8],
    s: Session,
) -> Session
    requires { s.at + 12338 ≤ length text.old }
    ensures { ((T : List ℕ) → Tabled T s.end t.now → 255 ≤ length values.now
        → Took (and_then (load_deed T store.old) (judged_line line.now)) s result t.now store.new values.now text.old text.new)
        × Calm 12338 s result }
{
    let loaded = tell_load(t, store, text, s);
    if loaded.stopped() {
        return loaded;
    }
    call_line(t, store, values, line, text, loaded)
}

// A line while the table comes.
fn early_line(
    t: &mut [u8],
    store: &mut [u32],
    values: &[u32],
    line: &[u8],
    text: &mut [u8],
    s: Session,
) -> Session
    requires { s.at + 12338 ≤ length text.old }
    ensures { ((T : List ℕ) → InTable T store.old s t.old store.old values.now
        → Took (line_deed (tabled T store.old) line.now) s result t.new store.new values.now text.old text.new)
        × Calm 12338 s result }
{
    if opens(line) {
        return opening_line(t, store, values, line, text, s);
    }
    table_line(t, line, text, s)
}

// Any line.
pub fn take_line(
    t: &mut [u8],
    store: &mut [u32],
    values: &mut [u32],
    line: &[u8],
    text: &mut [u8],
    s: Session,
) -> Session
    requires { s.at + 12338 ≤ length text.old }
    ensures { ((g : Stage) → Stands g s t.old store.old values.old
        → Took (line_deed g line.now) s result t.new store.new values.new text.old text.new)
        × Calm 12338 s result }
{
    match s.phase {
        Phase::Table => early_line(t, store, values, line, text, s),
        Phase::Calls => call_line(t, store, values, line, text, s),
        Phase::Values(a) => value_line(t, store, values, line, a, text, s),
        Phase::Stopped => s,
    }
}

// The end of the input, after its last line.
pub fn take_none(t: &[u8], store: &mut [u32], text: &mut [u8], s: Session) -> Session
    requires { s.at + 25 ≤ length text.old }
    ensures { ((g : Stage) (W : List ℕ) → Stands g s t.now store.old W → Took (end_deed g) s result t.now store.new W text.old text.new)
        × Calm 25 s result }
{
    match s.phase {
        Phase::Table => tell_load(t, store, text, s),
        Phase::Calls => s,
        Phase::Values(_) => malformed(text, s),
        Phase::Stopped => s,
    }
}
