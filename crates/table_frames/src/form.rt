// Refusal 2: the form of a frame.
ghost use Rattle.std.specs.Prelude.{◌≡◌, ◌<◌, ◌≤◌, get_or};
ghost use Rattle.rules_walks.specs.All.{all_to};
ghost use Rattle.rules_walks.specs.Held.{held_to};
ghost use Rattle.rules_tables.specs.Frame.{frames_of, kind_at};
ghost use Rattle.rules_tables.specs.Form.{used_of, clear_at, steps_ok, body_ok, form_ok};
ghost use Rattle.table_frames.specs.Kind.{kind_number};
ghost use Rattle.table_frames.specs.StartsTo.{StartsTo};
ghost use Rattle.table_frames.specs.Walked.{KindEnd};

use crate::frame;
use crate::frame::{field, flag};
use crate::kind::Kind;

// As `Form` of the rules says it, in bytes.
#[derive(Clone, Copy)]
pub struct Form {
    pub flags: u8,
    // By flag; the last entry is for each flag from 8 on.
    pub fields: [u8; 9],
    pub most: u16,
}

// A transition: from, to, event, of a guard 1 to 4 the variables too.
const TRANSITION_FIELDS: [u8; 9] = [3, 5, 5, 5, 5, 5, 5, 5, 5];

// A step: result, operands; copy and negate have one, age none.
const STEP_FIELDS: [u8; 9] = [2, 3, 3, 2, 3, 3, 3, 3, 1];

// By kind; entry 0 is not a kind of the rules.
static FORMS: [Form; 12] = [
    Form {
        flags: 0,
        fields: [0; 9],
        most: 0,
    },
    // 01 element: priority, of a basic one the initial state too.
    Form {
        flags: 4,
        fields: [2, 1, 1, 1, 1, 1, 1, 1, 1],
        most: 64,
    },
    // 02 event input: element.
    Form {
        flags: 255,
        fields: [1; 9],
        most: 256,
    },
    // 03 event output: element.
    Form {
        flags: 0,
        fields: [1; 9],
        most: 256,
    },
    // 04 variable: element, start value in halves.
    Form {
        flags: 2,
        fields: [3; 9],
        most: 512,
    },
    // 05 association: event, variable.
    Form {
        flags: 1,
        fields: [2; 9],
        most: 4096,
    },
    // 06 chart state: element.
    Form {
        flags: 0,
        fields: [1; 9],
        most: 512,
    },
    // 07 transition.
    Form {
        flags: 4,
        fields: TRANSITION_FIELDS,
        most: 1024,
    },
    // 08 action: state, first step, number of steps, event output.
    Form {
        flags: 0,
        fields: [4; 9],
        most: 4096,
    },
    // 09 step.
    Form {
        flags: 8,
        fields: STEP_FIELDS,
        most: 4096,
    },
    // 0A event connection: event output, event input.
    Form {
        flags: 0,
        fields: [2; 9],
        most: 4096,
    },
    // 0B data connection: output variable, input variable.
    Form {
        flags: 0,
        fields: [2; 9],
        most: 4096,
    },
];

// How many fields a frame of this kind with flag g uses.
pub fn used(kind: Kind, g: usize) -> usize
    ensures { result ≡ used_of (kind_number kind) g }
{
    usize::from(FORMS[kind.number()].fields[g.min(8)])
}

// The fields from u on are zero.
fn clear(t: &[u8], f: usize, u: usize) -> bool
    requires { f < frames_of t.now }
    ensures { result ≡ all_to (clear_at t.now f u) 5 }
{
    (u..5).all(|j| field(t, f, j) == 0)
}

// An action has at most 64 steps.
fn steps_ok(t: &[u8], f: usize, kind: Kind) -> bool
    requires { (f < frames_of t.now) × (kind_number kind ≡ kind_at t.now f) }
    ensures { result ≡ steps_ok t.now f }
{
    kind != Kind::Action || field(t, f, 2) <= 64
}

// What stands in the frame itself, which is of this kind.
fn body_ok(t: &[u8], f: usize, kind: Kind) -> bool
    requires { (f < frames_of t.now) × (kind_number kind ≡ kind_at t.now f) }
    ensures { result ≡ body_ok t.now f }
{
    let g = flag(t, f);
    g <= usize::from(FORMS[kind.number()].flags)
        && steps_ok(t, f, kind)
        && clear(t, f, used(kind, g))
}

// Where the frames of a kind end that stand from `start` on, one after another, each with the body of its form and no more than a table may have.
fn kind_end(t: &[u8], kind: Kind, start: usize) -> usize
    requires { (start ≤ frames_of t.now) × (frames_of t.now ≤ 4096) }
    ensures { KindEnd t.now (kind_number kind) start result }
{
    let most = usize::from(FORMS[kind.number()].most);
    let end = (t.len() / 12).min(start + most);
    for f in start..end {
        if frame::kind(t, f) != kind.number() || !body_ok(t, f, kind) {
            return f;
        }
    }
    end
}

// Where each kind begins among the frames, from the first on, that have their form; entry 12 tells how many these are.
// They are in order, so kind by kind each begins where the one before it ends. A frame that is left where its kind is looked for has a fault: no later kind takes it.
pub fn formed_starts(t: &[u8]) -> [usize; 13]
    requires { frames_of t.now ≤ 4096 }
    ensures { StartsTo t.now (held_to (form_ok t.now) (frames_of t.now)) result × (get_or result 12 0 ≡ held_to (form_ok t.now) (frames_of t.now)) }
{
    let mut from = [0usize; 13];
    let mut f = 0;
    for kind in Kind::ALL {
        f = kind_end(t, kind, f);
        from[kind.number() + 1] = f;
    }
    from
}
