// Bytes printed as upper-case hexadecimal digits.
ghost use Rattle.std.specs.Prelude.{◌≡◌, ◌+◌, ◌*◌, ◌<◌, ◌≤◌, length};
ghost use Rattle.std.proofs.lemmas.List.Edits.{sets};
ghost use Rattle.rules_sessions.specs.Text.{glyph as «glyph_of», pair, digits, line_of};

// What a letter has over what it counts: A counts ten.
const TEN: u8 = b'A' - 10;

// The digit that counts d.
#[tactic(auto, unfolding(rules_sessions::specs::Text::glyph))]
fn glyph(d: u8) -> u8
    requires { d < 16 }
    ensures { result ≡ «glyph_of» d }
{
    if d < 10 { b'0' + d } else { TEN + d }
}

// The two digits of a byte.
#[tactic(auto, unfolding(rules_sessions::specs::Text::pair))]
fn put_pair(text: &mut [u8], at: usize, b: u8)
    requires { at + 2 ≤ length text.old }
    ensures { text.new ≡ sets text.old at (pair b) }
{
    text[at] = glyph(b / 16);
    text[at + 1] = glyph(b % 16);
}

// The digits of all bytes.
fn put_digits(bytes: &[u8], text: &mut [u8], at: usize)
    requires { at + 2 * length bytes.now ≤ length text.old }
    ensures { text.new ≡ sets text.old at (digits bytes.now) }
{
    for (i, &b) in bytes.iter().enumerate() {
        put_pair(text, at + 2 * i, b);
    }
}

// The line of these bytes, and the place after it.
pub fn put_line(bytes: &[u8], text: &mut [u8], at: usize) -> usize
    requires { at + 2 * length bytes.now + 1 ≤ length text.old }
    ensures { (text.new ≡ sets text.old at (line_of bytes.now)) × (result ≡ at + 2 * length bytes.now + 1) }
{
    put_digits(bytes, text, at);
    let end = at + 2 * bytes.len();
    text[end] = b'\n';
    end + 1
}
