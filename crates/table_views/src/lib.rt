// Parts of the caller's table.
#![tactic(auto)]

ghost use Rattle.std.specs.Prelude.{◌≡◌, ◌+◌, ◌≤◌};
ghost use Rattle.rules_tables.specs.Frame.{frames_of};
ghost use Rattle.rules_tables.specs.View.{stretch as «stretch_of», IsPart, kind_span, step_span};
ghost use Rattle.table_views.specs.Within.{Within};

use rules_tables::Span;
use table_frames::frame::field;
use table_frames::kind::Kind;
use table_frames::kinds::Kinds;
use table_frames::place::starts;

const NOTHING: Span = Span { first: 0, count: 0 };

// So many frames from `first` on; an empty stretch lies at the table's start.
fn stretch(first: usize, count: usize) -> Span
    ensures { result ≡ stretch_of first count }
{
    if count == 0 {
        NOTHING
    } else {
        Span { first, count }
    }
}

// Where the frames of kind k stand.
pub fn kind_span(t: &[u8], k: usize) -> Span
    ensures { Within t.now (kind_span t.now k) result }
{
    let judged = table_check::check(t);
    let Ok(_) = judged else {
        return NOTHING;
    };
    let Some(kind) = Kind::of(k) else {
        return NOTHING;
    };
    if kind == Kind::Zero {
        return NOTHING;
    }
    let starts = starts(t);
    let kinds = Kinds {
        table: t,
        starts: &starts,
    };
    stretch(starts[k], kinds.count(kind))
}

// Where the steps of an action stand.
pub fn step_span(t: &[u8], id: usize) -> Span
    ensures { Within t.now (step_span t.now id) result }
{
    let judged = table_check::check(t);
    let Ok(shape) = judged else {
        return NOTHING;
    };
    if shape.actions_end - shape.transitions_end <= id {
        return NOTHING;
    }
    let p = shape.transitions_end + id;
    let n = field(t, p, 2);
    if n == 0 {
        return NOTHING;
    }
    Span {
        first: shape.actions_end + field(t, p, 1),
        count: n,
    }
}

// The stretch of the table that holds the frames of a span.
fn part(t: &[u8], s: Span) -> &[u8]
    requires { s.first + s.count ≤ frames_of t.now }
    ensures { IsPart t.entry result s }
{
    let a = 12 * s.first;
    let e = a + 12 * s.count;
    &t[a..e]
}

// The frames of a kind.
pub fn frames_of(t: &[u8], k: usize) -> &[u8]
    ensures { IsPart t.entry result (kind_span t.now k) }
{
    part(t, kind_span(t, k))
}

// The steps of an action.
pub fn steps_of(t: &[u8], id: usize) -> &[u8]
    ensures { IsPart t.entry result (step_span t.now id) }
{
    part(t, step_span(t, id))
}
