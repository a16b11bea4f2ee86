// What a frame of a trace says.
ghost use Rattle.std.specs.Prelude.{◌≡◌, ◌<◌};
ghost use Rattle.rules_tables.specs.Frame.{frames_of};
ghost use Rattle.rules_traces.specs.Reader.{entry_in, right_frame};

use numbers::bytes::word_at;
use rules_traces::Entry;
use table_frames::frame::{field, flag, kind};

// The first byte of every frame.
const TRACE: usize = 0x84;

// What the frame says.
pub fn entry_in(frame: &[u8]) -> Entry
    requires { 0 < frames_of frame.now }
    ensures { (result ≡ entry_in frame.now) × (result.block < 65536) × (result.id < 65536) }
{
    Entry {
        kind: flag(frame, 0),
        block: field(frame, 0, 0),
        id: field(frame, 0, 1),
        value: word_at(frame, 6),
    }
}

// 84, and e zero.
#[tactic(auto, unfolding(rules_traces::specs::Reader::right_frame))]
pub fn right_frame(frame: &[u8]) -> bool
    requires { 0 < frames_of frame.now }
    ensures { result ≡ right_frame frame.now }
{
    kind(frame, 0) == TRACE && field(frame, 0, 4) == 0
}
