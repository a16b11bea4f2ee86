// Words and numbers printed.
ghost use Rattle.std.specs.Prelude.{◌+◌, ◌≤◌, length};
ghost use Rattle.rules_shows.specs.Words.{decimal as «decimal_of», signed as «signed_of»};
ghost use Rattle.lines.specs.Printed.{Printed};

// These bytes, and the place after them.
pub fn put_word(word: &[u8], text: &mut [u8], at: usize) -> usize
    requires { at + length word.now ≤ length text.old }
    ensures { Printed word.now at (at + length word.now) result text.old text.new }
{
    let end = at + word.len();
    text[at..end].copy_from_slice(word);
    end
}

// The decimal digits of a number, at most 20.
pub fn put_number(n: u64, text: &mut [u8], at: usize) -> usize
    requires { at + 20 ≤ length text.old }
    ensures { Printed («decimal_of» n) at (at + 20) result text.old text.new }
{
    let mut digits = [0u8; 20];
    let k = io::decimal(n, &mut digits);
    put_word(&digits[..k], text, at)
}

// Where a word read as a signed number is negative.
const NEGATIVE: u32 = 2147483648;

// And what it then lacks: 2^32.
const WHOLE: u64 = 4294967296;

// A word as a signed number.
pub fn put_signed(w: u32, text: &mut [u8], at: usize) -> usize
    requires { at + 21 ≤ length text.old }
    ensures { Printed («signed_of» w) at (at + 21) result text.old text.new }
{
    if w < NEGATIVE {
        return put_number(w as u64, text, at);
    }
    let from = put_word(b"-", text, at);
    put_number(WHOLE - w as u64, text, from)
}
