// The lines of a trace: line k, from 0, lies at 25 k where each line before it is a whole one.
ghost use Rattle.std.specs.Prelude.{◌≡◌, true, ◌+◌, ◌*◌, ◌<◌, ◌≤◌, length};
ghost use Rattle.rules_traces.specs.Reader.{line_at, another_line, ended_at, whole_line, frame_at};

use lines::line::{all_digits, put_frame};

// The digits of a line, and how far the next line lies.
const DIGITS: usize = 24;

const STRIDE: usize = 25;

// The characters of line k.
fn line_at(text: &[u8], k: usize) -> &[u8]
    requires { 25 * k + 24 ≤ length text.now }
    ensures { result.now ≡ line_at text.now k }
{
    let at = STRIDE * k;
    &text[at..at + DIGITS]
}

// There is a line k.
#[tactic(auto, unfolding(rules_traces::specs::Reader::another_line))]
pub fn another_line(text: &[u8], k: usize) -> bool
    requires { 25 * k ≤ length text.now + 1 }
    ensures { result ≡ another_line text.now k }
{
    STRIDE * k < text.len()
}

// A line ends at `at`: with the text, or by 0A.
#[tactic(auto, unfolding(rules_traces::specs::Reader::ended_at))]
fn ended_at(text: &[u8], at: usize) -> bool
    ensures { result ≡ ended_at text.now at }
{
    text.len() == at || at < text.len() && text[at] == b'\n'
}

// Line k has 24 digits and its end.
pub fn whole_line(text: &[u8], k: usize) -> bool
    requires { 25 * k < length text.now }
    ensures { result ≡ whole_line text.now k }
{
    let at = STRIDE * k;
    DIGITS <= text.len() - at && all_digits(line_at(text, k)) && ended_at(text, at + DIGITS)
}

// The frame of line k.
pub fn frame_at(text: &[u8], k: usize) -> [u8; 12]
    requires { whole_line text.now k ≡ true }
    ensures { result ≡ frame_at text.now k }
{
    let mut frame = [0u8; 12];
    put_frame(line_at(text, k), &mut frame, 0);
    frame
}
