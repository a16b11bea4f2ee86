// Where a session stands between two bytes of its input.
ghost use Rattle.std.specs.Prelude.{◌≡◌};
ghost use Rattle.session_dialogue.specs.Standing.{is_stopped};

// An arrival whose values come line by line.
#[derive(Clone, Copy)]
pub struct Arriving {
    // How many values it has.
    pub number: usize,
    pub event: usize,
    pub birth: u32,
    // How many have come.
    pub got: usize,
}

// What the next line is read as.
#[derive(Clone, Copy)]
pub enum Phase {
    // A frame of the table, unless it begins 80 to 83.
    Table,
    // A call.
    Calls,
    // A value of an arrival.
    Values(Arriving),
    // Nothing: the program has stopped.
    Stopped,
}

#[derive(Clone, Copy)]
pub struct Session {
    pub phase: Phase,
    // The bytes of the table so far.
    pub end: usize,
    // The characters of the line so far.
    pub length: usize,
    // The bytes of text that wait to be written.
    pub at: usize,
}

impl Session {
    // Before the first byte.
    pub fn new() -> Self
        ensures { (result.phase ≡ Phase.Table) × (result.end ≡ 0) × (result.length ≡ 0) × (result.at ≡ 0) }
    {
        Session {
            phase: Phase::Table,
            end: 0,
            length: 0,
            at: 0,
        }
    }

    // In another phase, with the text printed up to `at`.
    pub fn told(self, phase: Phase, at: usize) -> Self
        ensures { (result.phase ≡ phase) × (result.end ≡ self.end) × (result.length ≡ self.length) × (result.at ≡ at) }
    {
        Session { phase, at, ..self }
    }

    // The table's frames end here.
    pub fn with_end(self, end: usize) -> Self
        ensures { (result.phase ≡ self.phase) × (result.end ≡ end) × (result.length ≡ self.length) × (result.at ≡ self.at) }
    {
        Session { end, ..self }
    }

    // So many characters of the line have come.
    pub fn with_line(self, length: usize) -> Self
        ensures { (result.phase ≡ self.phase) × (result.end ≡ self.end) × (result.length ≡ length) × (result.at ≡ self.at) }
    {
        Session { length, ..self }
    }

    // The text is written.
    pub fn written(self) -> Self
        ensures { (result.phase ≡ self.phase) × (result.end ≡ self.end) × (result.length ≡ self.length) × (result.at ≡ 0) }
    {
        Session { at: 0, ..self }
    }

    // The program stops.
    pub fn ended(self) -> Self
        ensures { (result.phase ≡ Phase.Stopped) × (result.end ≡ self.end) × (result.length ≡ self.length) × (result.at ≡ self.at) }
    {
        Session {
            phase: Phase::Stopped,
            ..self
        }
    }

    pub fn stopped(self) -> bool
        ensures { result ≡ is_stopped self.phase }
    {
        matches!(self.phase, Phase::Stopped)
    }
}

// The buffers that a program lends to a session; the store has as many words as the program gives it.
#[derive(Drop)]
pub struct Buffers<const STORE: usize> {
    // One frame more than a table may have, so that a longer one is refused by its length.
    pub table: [u8; 49164],
    pub store: [u32; STORE],
    // An arrival's flag counts at most 255 values.
    pub values: [u32; 255],
    // One character more than a line may have, so that a longer one is of a wrong form.
    pub line: [u8; 25],
    // Room for what is printed, and waits to be written.
    pub text: [u8; 65536],
}
