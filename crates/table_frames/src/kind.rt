// The kinds of frames and their flags, by document 01's table.
ghost use Rattle.std.specs.Prelude.{◌≡◌, ◌<◌, ◌≤◌, MatchOption};
ghost use Rattle.table_frames.specs.Kind.{kind_number};

// A kind of frames. The byte 0 is not a kind of the rules, but its frames are counted as those of a kind are.
#[derive(Clone, Copy, PartialEq, Eq, Debug)]
pub enum Kind {
    Zero = 0,
    Element = 1,
    EventInput = 2,
    EventOutput = 3,
    Variable = 4,
    Association = 5,
    ChartState = 6,
    Transition = 7,
    Action = 8,
    Step = 9,
    EventConnection = 10,
    DataConnection = 11,
}

impl Kind {
    // The kinds of the rules, in the order of a table.
    pub const ALL: [Kind; 11] = [
        Kind::Element,
        Kind::EventInput,
        Kind::EventOutput,
        Kind::Variable,
        Kind::Association,
        Kind::ChartState,
        Kind::Transition,
        Kind::Action,
        Kind::Step,
        Kind::EventConnection,
        Kind::DataConnection,
    ];

    // The kind with this number, if there is one.
    pub fn of(number: usize) -> Option<Kind>
        ensures { MatchOption result (12 ≤ number) (λ kind. (kind_number kind ≡ number) × (number < 12)) }
    {
        match number {
            0 => Some(Kind::Zero),
            1 => Some(Kind::Element),
            2 => Some(Kind::EventInput),
            3 => Some(Kind::EventOutput),
            4 => Some(Kind::Variable),
            5 => Some(Kind::Association),
            6 => Some(Kind::ChartState),
            7 => Some(Kind::Transition),
            8 => Some(Kind::Action),
            9 => Some(Kind::Step),
            10 => Some(Kind::EventConnection),
            11 => Some(Kind::DataConnection),
            _ => None,
        }
    }

    // The kind byte.
    pub fn number(self) -> usize
        ensures { (result ≡ kind_number self) × (result < 12) }
    {
        self as usize
    }
}

// What follows stays numbers, not enums: a flag is a byte of the table and a field is two. Each may hold any number, and the rules compare it with these.

// FFFF means none, where it may.
pub const NONE: usize = 65535;

// The sorts of elements: the flag of kind 01.
pub const BASIC: usize = 0;

pub const INTERFACE: usize = 1;

pub const DELAY: usize = 2;

pub const SOURCE: usize = 3;

pub const SINK: usize = 4;

// The roles of variables: the flag of kind 04.
pub const INPUT: usize = 0;

pub const OUTPUT: usize = 1;

pub const INTERNAL: usize = 2;

// Which events an association is of: the flag of kind 05.
pub const OF_INPUT: usize = 0;

pub const OF_OUTPUT: usize = 1;
