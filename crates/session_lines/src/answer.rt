// Answers printed: C0, flag refusal, a frame, b, c moves, d stop number, e bytes.
ghost use Rattle.std.specs.Prelude.{◌≡◌, ◌+◌, ◌≤◌, length};
ghost use Rattle.std.proofs.lemmas.List.Edits.{sets};
ghost use Rattle.rules_sessions.specs.AnswerLine.{answer_frame, answer_line, malformed_line};
ghost use Rattle.rules_sessions.specs.Text.{line_of};

use lines::text::put_line;
use numbers::bytes::{put_half, put_word};
use rules_calls::{Answer, Answered};

// The kind of an answer's frame.
const ANSWER: u8 = 0xC0;
// The flag for a line of any other form or place.
const MALFORMED: usize = 0xFF;

// The line of five numbers.
fn put_numbers(
    text: &mut [u8],
    at: usize,
    number: usize,
    frame: usize,
    moves: u32,
    stop: u32,
    bytes: usize,
) -> usize
    requires { at + 25 ≤ length text.old }
    ensures { (text.new ≡ sets text.old at (line_of (answer_frame number frame moves stop bytes))) × (result ≡ at + 25) }
{
    let mut f = [0u8; 12];
    f[0] = ANSWER;
    f[1] = (number % 256) as u8;
    put_half(&mut f, 2, (frame % 65536) as u16);
    put_word(&mut f, 4, moves);
    put_half(&mut f, 8, (stop % 65536) as u16);
    put_half(&mut f, 10, (bytes % 65536) as u16);
    put_line(&f, text, at)
}

// The line of an answer, and the place after it.
pub fn put_answer(text: &mut [u8], at: usize, a: Answer) -> usize
    requires { at + 25 ≤ length text.old }
    ensures { (text.new ≡ sets text.old at (answer_line a)) × (result ≡ at + 25) }
{
    put_numbers(
        text,
        at,
        a.number(),
        a.frame(),
        a.moves(),
        a.stop(),
        a.bytes(),
    )
}

// The line for a line of any other form or place: C0FF and twenty zeros.
pub fn put_malformed(text: &mut [u8], at: usize) -> usize
    requires { at + 25 ≤ length text.old }
    ensures { (text.new ≡ sets text.old at malformed_line) × (result ≡ at + 25) }
{
    put_numbers(text, at, MALFORMED, 0, 0, 0, 0)
}
