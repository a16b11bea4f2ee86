// Refusal 3: the references of a frame, one function for each rule.
#![tactic(auto)]

mod walk;

ghost use Rattle.std.specs.Prelude.{◌≡◌, true, ◌<◌, ◌≤◌};
ghost use Rattle.rules_walks.specs.All.{all_to};
ghost use Rattle.rules_walks.specs.Held.{held_to};
ghost use Rattle.rules_tables.specs.Kind.{element};
ghost use Rattle.rules_tables.specs.Frame.{frames_of, kind_at, flag_at};
ghost use Rattle.rules_tables.specs.Place.{count_to};
ghost use Rattle.rules_tables.specs.Form.{form_ok, used_of};
ghost use Rattle.table_frames.specs.Kind.{kind_number};
ghost use Rattle.table_references.specs.Known.{Reaches};
ghost use Rattle.rules_tables.specs.Reference.{initial_state, of_element, joins as «joins_at», associates as «associates_at», of_basic, maybe_owned, uses_own, transits as «transits_at», steps_to, connects_events, variable_with, connects_data, refers_ok};

use crate::walk::Walk;
use table_frames::form::used;
use table_frames::frame::{field, flag, kind};
use table_frames::frames::Frames;
use table_frames::kind::{BASIC, INPUT, INTERFACE, Kind, NONE, OF_INPUT, OUTPUT};

// Steps whose results are known to be of one element: those from `first` to before `end`. An action may have the steps of the action
// before it; these are then not looked at once more.
#[derive(Clone, Copy, Default)]
pub struct Run {
    pub element: usize,
    pub first: usize,
    pub end: usize,
}

impl Run {
    // How many steps from b on are known to have results of element el.
    fn known_from(self, b: usize, el: usize) -> usize
        requires { self.first ≤ self.end }
        ensures { Reaches self b el result }
    {
        if self.element == el && self.first <= b {
            self.end.saturating_sub(b)
        } else {
            0
        }
    }
}

// 01: a basic element's initial state is its own; an element's id is its frame.
fn initial_state(frames: &Frames, f: usize) -> bool
    requires { (f < frames_of frames.now.kinds.table.now) × (count_to frames.now.kinds.table.now element f ≡ f) }
    ensures { result ≡ initial_state frames.now.kinds.table.now f }
{
    let t = frames.kinds.table;
    flag(t, f) != BASIC || frames.owned(Kind::ChartState, field(t, f, 1), f)
}

// 02, 03, 04: of an element that exists.
fn of_element(frames: &Frames, f: usize) -> bool
    requires { f < frames_of frames.now.kinds.table.now }
    ensures { result ≡ of_element frames.now.kinds.table.now f }
{
    frames.exists(Kind::Element, field(frames.kinds.table, f, 0))
}

// An event of this kind and a variable of role g, of one element.
fn joins(frames: &Frames, f: usize, kind: Kind, g: usize) -> bool
    requires { f < frames_of frames.now.kinds.table.now }
    ensures { result ≡ joins_at frames.now.kinds.table.now f (kind_number kind) g }
{
    let t = frames.kinds.table;
    let event = field(t, f, 0);
    let v = field(t, f, 1);
    if !frames.exists(kind, event) {
        return false;
    }
    if !frames.exists(Kind::Variable, v) {
        return false;
    }
    let p = frames.place(Kind::Variable, v);
    field(t, p, 0) == frames.owner(kind, event) && flag(t, p) == g
}

// 05.
fn associates(frames: &Frames, f: usize) -> bool
    requires { f < frames_of frames.now.kinds.table.now }
    ensures { result ≡ associates_at frames.now.kinds.table.now f }
{
    let t = frames.kinds.table;
    if flag(t, f) == OF_INPUT {
        return joins(frames, f, Kind::EventInput, INPUT);
    }
    joins(frames, f, Kind::EventOutput, OUTPUT)
        && !frames.sort_is(frames.owner(Kind::EventOutput, field(t, f, 0)), INTERFACE)
}

// 06: of a basic element.
fn of_basic(frames: &Frames, f: usize) -> bool
    requires { f < frames_of frames.now.kinds.table.now }
    ensures { result ≡ of_basic frames.now.kinds.table.now f }
{
    frames.sort_is(field(frames.kinds.table, f, 0), BASIC)
}

// An id that may be none, else is of element el.
fn maybe_owned(frames: &Frames, kind: Kind, id: usize, el: usize) -> bool
    ensures { result ≡ maybe_owned frames.now.kinds.table.now (kind_number kind) id el }
{
    id == NONE || frames.owned(kind, id, el)
}

// Field j, if it is one of the u that the frame uses, is a variable of element el.
fn uses_own(frames: &Frames, f: usize, u: usize, j: usize, el: usize) -> bool
    requires { (f < frames_of frames.now.kinds.table.now) × (j < 5) × (u ≡ used_of (kind_at frames.now.kinds.table.now f) (flag_at frames.now.kinds.table.now f)) }
    ensures { result ≡ uses_own frames.now.kinds.table.now f j el }
{
    u <= j || frames.owned(Kind::Variable, field(frames.kinds.table, f, j), el)
}

// 07: states, event and variables of one element.
fn transits(frames: &Frames, f: usize, u: usize) -> bool
    requires { (f < frames_of frames.now.kinds.table.now) × (u ≡ used_of (kind_at frames.now.kinds.table.now f) (flag_at frames.now.kinds.table.now f)) }
    ensures { result ≡ transits_at frames.now.kinds.table.now f }
{
    let t = frames.kinds.table;
    let from = field(t, f, 0);
    if !frames.exists(Kind::ChartState, from) {
        return false;
    }
    let el = frames.owner(Kind::ChartState, from);
    if !frames.owned(Kind::ChartState, field(t, f, 1), el) {
        return false;
    }
    if !maybe_owned(frames, Kind::EventInput, field(t, f, 2), el) {
        return false;
    }
    uses_own(frames, f, u, 3, el) && uses_own(frames, f, u, 4, el)
}

// 09: variables of one basic element, the result not an input.
fn steps_to(frames: &Frames, f: usize, u: usize) -> bool
    requires { (f < frames_of frames.now.kinds.table.now) × (u ≡ used_of (kind_at frames.now.kinds.table.now f) (flag_at frames.now.kinds.table.now f)) }
    ensures { result ≡ steps_to frames.now.kinds.table.now f }
{
    let t = frames.kinds.table;
    let v = field(t, f, 0);
    if !frames.exists(Kind::Variable, v) {
        return false;
    }
    let p = frames.place(Kind::Variable, v);
    if flag(t, p) == INPUT {
        return false;
    }
    let el = field(t, p, 0);
    if !frames.sort_is(el, BASIC) {
        return false;
    }
    uses_own(frames, f, u, 1, el) && uses_own(frames, f, u, 2, el)
}

// 0A: from an event output to an event input.
fn connects_events(frames: &Frames, f: usize) -> bool
    requires { f < frames_of frames.now.kinds.table.now }
    ensures { result ≡ connects_events frames.now.kinds.table.now f }
{
    let t = frames.kinds.table;
    frames.exists(Kind::EventOutput, field(t, f, 0))
        && frames.exists(Kind::EventInput, field(t, f, 1))
}

// A variable of role g.
fn variable_with(frames: &Frames, v: usize, g: usize) -> bool
    ensures { result ≡ variable_with frames.now.kinds.table.now v g }
{
    frames.exists(Kind::Variable, v) && frames.flag_of(Kind::Variable, v) == g
}

// 0B: from an output to an input variable.
fn connects_data(frames: &Frames, f: usize) -> bool
    requires { f < frames_of frames.now.kinds.table.now }
    ensures { result ≡ connects_data frames.now.kinds.table.now f }
{
    let t = frames.kinds.table;
    variable_with(frames, field(t, f, 0), OUTPUT) && variable_with(frames, field(t, f, 1), INPUT)
}

// The references of frame f, by its kind.
fn refers_ok(walk: &Walk, f: usize, kind: Kind) -> bool
    requires { (f < frames_of walk.now.frames.kinds.table.now) × (kind_number kind ≡ kind_at walk.now.frames.kinds.table.now f) × (kind_at walk.now.frames.kinds.table.now f ≡ element → count_to walk.now.frames.kinds.table.now element f ≡ f) }
    ensures { result ≡ refers_ok walk.now.frames.kinds.table.now f }
{
    let frames = &walk.frames;
    let g = flag(frames.kinds.table, f);
    match kind {
        Kind::Element => initial_state(frames, f),
        Kind::Association => associates(frames, f),
        Kind::ChartState => of_basic(frames, f),
        Kind::Transition => transits(frames, f, used(Kind::Transition, g)),
        Kind::Action => walk.acts(f),
        Kind::Step => steps_to(frames, f, used(Kind::Step, g)),
        Kind::EventConnection => connects_events(frames, f),
        Kind::DataConnection => connects_data(frames, f),
        Kind::Zero | Kind::EventInput | Kind::EventOutput | Kind::Variable => of_element(frames, f),
    }
}

// How many frames, from the first on and of the first n, refer rightly. These n have their form.
pub fn references_end(frames: &Frames, n: usize) -> usize
    requires { (n ≤ frames_of frames.now.kinds.table.now) × (all_to (form_ok frames.now.kinds.table.now) n ≡ true) }
    ensures { result ≡ held_to (refers_ok frames.now.kinds.table.now) n }
{
    let mut run = Run::default();
    for f in 0..n {
        let kind = Kind::of(kind(frames.kinds.table, f)).unwrap();
        let walk = Walk {
            frames: *frames,
            run,
        };
        if !refers_ok(&walk, f, kind) {
            return f;
        }
        if kind == Kind::Action {
            run = walk.known_after(f);
        }
    }
    n
}
