// A line read: 2 to 24 upper-case hexadecimal digits, an even number, one frame each; digits left off at the end are zeros.
ghost use Rattle.std.specs.Prelude.{◌≡◌, true, ◌+◌, ◌*◌, ◌<◌, ◌≤◌, length, get_or};
ghost use Rattle.std.proofs.lemmas.List.Edits.{sets};
ghost use Rattle.numbers.specs.Bounded.{Bounded};
ghost use Rattle.rules_sessions.specs.Line.{is_digit, digit_value, all_digits, line_ok as «line_ok», byte_of, line_frame, opens as «opens_at»};

// A digit, 0 to 9 or A to F.
#[tactic(auto, unfolding(rules_sessions::specs::Line::is_digit))]
fn is_digit(c: u8) -> bool
    ensures { result ≡ is_digit c }
{
    matches!(c, b'0'..=b'9' | b'A'..=b'F')
}

// What a digit counts.
fn digit_value(c: u8) -> usize
    requires { is_digit c ≡ true }
    ensures { Bounded 16 (digit_value c) result }
{
    if c <= b'9' {
        usize::from(c - b'0')
    } else {
        usize::from(c - b'A') + 10
    }
}

// The character at i; past the end of the line, a zero.
fn character(line: &[u8], i: usize) -> u8
    ensures { result ≡ get_or line.now i 48 }
{
    if i < line.len() { line[i] } else { b'0' }
}

pub fn all_digits(line: &[u8]) -> bool
    ensures { result ≡ all_digits line.now }
{
    line.iter().all(|c| is_digit(*c))
}

// The line has the form of a frame.
#[tactic(auto, unfolding(rules_sessions::specs::Line::line_ok))]
pub fn line_ok(line: &[u8]) -> bool
    ensures { result ≡ «line_ok» line.now }
{
    let n = line.len();
    2 <= n && n <= 24 && n % 2 == 0 && all_digits(line)
}

// Byte k of the line's frame.
fn byte_of(line: &[u8], k: usize) -> u8
    requires { («line_ok» line.now ≡ true) × (k < 12) }
    ensures { result ≡ byte_of line.now k }
{
    let high = digit_value(character(line, 2 * k));
    let low = digit_value(character(line, 2 * k + 1));
    (high * 16 + low) as u8
}

// Writes the line's frame, 12 bytes, at `at`.
pub fn put_frame(line: &[u8], t: &mut [u8], at: usize)
    requires { («line_ok» line.now ≡ true) × (at + 12 ≤ length t.old) }
    ensures { t.new ≡ sets t.old at (line_frame line.now) }
{
    for k in 0..12 {
        t[at + k] = byte_of(line, k);
    }
}

// The line begins 80 to 83: it ends the table, whatever follows.
#[tactic(auto, unfolding(rules_sessions::specs::Line::opens))]
pub fn opens(line: &[u8]) -> bool
    ensures { result ≡ «opens_at» line.now }
{
    matches!(line, [b'8', b'0'..=b'3', ..])
}
