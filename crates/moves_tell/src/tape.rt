// The trace while it is written: the frames of a move go onto it one after the other.
ghost use Rattle.std.specs.Prelude.{◌≡◌, [], ◌∷◌, ◌+◌, ◌<◌, ◌≤◌, length};
ghost use Rattle.std.proofs.lemmas.List.Edits.{sets};
ghost use Rattle.rules_traces.specs.Entry.{entry, trace_byte, entry_frame};
ghost use Rattle.rules_traces.specs.Trace.{differing};
ghost use Rattle.moves_tell.specs.Told.{Fitting};
ghost use Rattle.moves_tell.specs.Taped.{Taped, Space};

use numbers::bytes::{put_half, put_word};
use rules_traces::Entry;

// The first byte of every frame.
const TRACE: u8 = 132;

// The bytes of the trace, and the place after what is written.
#[derive(Drop)]
pub struct Tape<'a> {
    pub bytes: &'a mut [u8],
    pub at: usize,
}

impl Tape<'_> {
    // Writes a frame.
    pub fn put(&mut self, e: Entry)
        requires { Fitting e × Space (e ∷ []) self.old }
        ensures { Taped (e ∷ []) self.old self.new }
    {
        write_frame(
            self.bytes,
            self.at,
            e.kind as u8,
            e.block as u16,
            e.id as u16,
            e.value,
        );
        self.at += 12;
    }

    // Only where the value differs from before.
    pub fn put_differing(&mut self, before: u32, e: Entry)
        requires { Fitting e × Space (differing before e) self.old }
        ensures { Taped (differing before e) self.old self.new }
    {
        if before != e.value {
            self.put(e);
        }
    }
}

// Writes the first two bytes of a frame at `at`.
fn put_kind(trace: &mut [u8], at: usize, kind: u8)
    requires { at + 1 < length trace.old }
    ensures { trace.new ≡ sets trace.old at (trace_byte ∷ kind ∷ []) }
{
    trace[at] = TRACE;
    trace[at + 1] = kind;
}

// Writes the 12 bytes of a frame at `at`.
fn write_frame(trace: &mut [u8], at: usize, kind: u8, block: u16, id: u16, value: u32)
    requires { at + 12 ≤ length trace.old }
    ensures { trace.new ≡ sets trace.old at (entry_frame (entry kind block id value)) }
{
    put_kind(trace, at, kind);
    put_half(trace, at + 2, block);
    put_half(trace, at + 4, id);
    put_word(trace, at + 6, value);
    put_half(trace, at + 10, 0);
}
