// The lines of the table.
ghost use Rattle.std.specs.Prelude.{◌≡◌, true, ℕ, ◌+◌, ◌≤◌, List, ◌++◌, length};
ghost use Rattle.rules_sessions.specs.Line.{line_ok, line_frame};
ghost use Rattle.rules_sessions.specs.Session.{frame_deed};
ghost use Rattle.session_dialogue.specs.Standing.{Tabled, InTable, Took, Calm};

use crate::part::has_room;
use crate::session::Session;
use crate::told::malformed;
use lines::line::{line_ok, put_frame};

// The table with the line's frame after those before, and its end. Frames past the buffer are dropped: it has room for one frame more than a table may have, so
// a table with too many lines is refused by its length.
fn keep(t: &mut [u8], line: &[u8], end: usize) -> usize
    requires { line_ok line.now ≡ true }
    ensures { (T : List ℕ) → Tabled T end t.old → Tabled (T ++ line_frame line.now) result t.new }
{
    if !has_room(t, end, 12) {
        return end;
    }
    put_frame(line, t, end);
    end + 12
}

// A line of the table.
pub fn table_line(t: &mut [u8], line: &[u8], text: &mut [u8], s: Session) -> Session
    requires { s.at + 25 ≤ length text.old }
    ensures { ((T st W : List ℕ) → InTable T st s t.old st W → Took (frame_deed T st line.now) s result t.new st W text.old text.new) × Calm 25 s result }
{
    if !line_ok(line) {
        return malformed(text, s);
    }
    let end = keep(t, line, s.end);
    s.with_end(end)
}
