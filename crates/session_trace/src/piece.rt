// A traced run made in pieces, each as long as its trace has room: a run's trace may be longer than any buffer. The next piece goes on with what is left of the
// budget and of the output.
ghost use Rattle.std.specs.Prelude.{◌≡◌, ◌*◌, ◌/◌, ◌≤◌, length};
ghost use Rattle.rules_tables.specs.Judge.{judged};
ghost use Rattle.lines.specs.Printed.{Printed};
ghost use Rattle.session_trace.specs.Pieces.{goes_on, shown_by, Pieced, Seen};

use crate::frames::put_lines;
use crate::shown::put_shown;
use calls::show::show;
use calls::traced::run_traced;
use lines::part::stretch;
use rules_calls::{Answer, Answered};
use rules_traces::{Shown, Traced};
use store_words::network::Network;
use table_check::check;

#[derive(Clone, Copy)]
pub struct Piece {
    pub traced: Traced,
    // The bytes of its lines, from the start of the text on.
    pub at: usize,
}

// The stop number where the trace has no room for the next move.
const NO_TRACE_ROOM: u32 = 4;

// The run goes on with another piece: this one stopped for want of trace room, and not at once.
#[tactic(auto, unfolding(crate::specs::Pieces::goes_on))]
pub fn goes_on(a: Answer) -> bool
    ensures { result ≡ goes_on a }
{
    a.stop() == NO_TRACE_ROOM && 0 < a.moves()
}

// A piece of a run, and the lines of its trace at the start of the text.
pub fn trace_piece(
    t: &[u8],
    store: &mut [u32],
    budget: u32,
    out: &mut [u8],
    trace: &mut [u8],
    text: &mut [u8],
) -> Piece
    requires { 25 * (length trace.old / 12) ≤ length text.old }
    ensures { Pieced t.now store.old budget out.old trace.old text.old result store.new out.new trace.new text.new }
{
    let traced = run_traced(t, store, budget, out, trace);
    let at = put_lines(stretch(trace, traced.traced), text, 0);
    Piece { traced, at }
}

#[derive(Clone, Copy)]
pub struct SeenPiece {
    pub piece: Piece,
    pub shown: Shown,
}

// A piece of a run, and what the shown store shows after at most so many of its frames.
pub fn show_piece(
    t: &[u8],
    store: &mut [u32],
    budget: u32,
    out: &mut [u8],
    trace: &mut [u8],
    text: &mut [u8],
    shown: &mut [u32],
    frames: usize,
) -> SeenPiece
    requires { 25 * (length trace.old / 12) ≤ length text.old }
    ensures { Pieced t.now store.old budget out.old trace.old text.old result.piece store.new out.new trace.new text.new
        × Seen t.now shown.old text.new result.piece.at frames result.shown shown.new }
{
    let piece = trace_piece(t, store, budget, out, trace, text);
    let shown = show(t, shown, stretch(text, piece.at), frames);
    SeenPiece { piece, shown }
}

// What the shown store shows after so many frames, at the start of the text; nothing for a table that was not accepted.
pub fn put_store(t: &[u8], shown: &[u32], frames: usize, text: &mut [u8]) -> usize
    requires { 32988 ≤ length text.old }
    ensures { Printed (shown_by (judged t.now) t.now shown.now frames) 0 32988 result text.old text.new }
{
    let Ok(shape) = check(t) else {
        return 0;
    };
    let net = Network { table: t, shape };
    put_shown(&net, shown, frames, text, 0)
}
