// The classes of parts that an element has.
ghost use Rattle.std.specs.Prelude.{◌≡◌, ◌<◌, ◌+◌, min};
ghost use Rattle.rules_tables.specs.Frame.{frames_of};
ghost use Rattle.rules_tables.specs.Shapes.{class_at};
ghost use Rattle.table_network.specs.Class.{class_number, class_or_none};

use table_frames::frame::{flag, kind};
use table_frames::kind::{INPUT, INTERNAL, Kind, OUTPUT};

#[derive(Clone, Copy, PartialEq, Eq, Debug)]
pub enum Class {
    EventInputs,
    EventOutputs,
    Inputs,
    Outputs,
    Internals,
    // Variables of a flag that is not known.
    Unknowns,
}

impl Class {
    pub fn number(self) -> usize
        ensures { (result ≡ class_number self) × (result < 6) }
    {
        self as usize
    }
}

// The kinds of parts, as kind bytes. They stay numbers: a `match` on `Kind::of` takes some three instructions more for each part.
const EVENT_INPUT: usize = Kind::EventInput as usize;

const EVENT_OUTPUT: usize = Kind::EventOutput as usize;

const VARIABLE: usize = Kind::Variable as usize;

// The class of part that a frame is.
#[tactic(auto, unfolding(rules_tables::specs::Shapes::class_at))]
pub fn class_of(t: &[u8], f: usize) -> Option<Class>
    requires { f < frames_of t.now }
    ensures { class_or_none result ≡ class_at t.now f }
{
    match kind(t, f) {
        EVENT_INPUT => Some(Class::EventInputs),
        EVENT_OUTPUT => Some(Class::EventOutputs),
        VARIABLE => Some(variable_class(flag(t, f))),
        _ => None,
    }
}

// The class of a variable with flag g: that of its role.
fn variable_class(g: usize) -> Class
    ensures { class_number result ≡ min g 3 + 2 }
{
    match g {
        INPUT => Class::Inputs,
        OUTPUT => Class::Outputs,
        INTERNAL => Class::Internals,
        _ => Class::Unknowns,
    }
}
