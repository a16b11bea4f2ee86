// A decimal number read, as a program's argument.
ghost use Rattle.std.specs.Prelude.{◌≡◌};
ghost use Rattle.session_trace.specs.Number.{is_decimal, number_of};

// The most digits that are read: every number of so many fits.
const MOST: usize = 18;

#[tactic(auto, unfolding(crate::specs::Number::is_decimal))]
fn is_decimal(c: u8) -> bool
    ensures { result ≡ is_decimal c }
{
    matches!(c, b'0'..=b'9')
}

// The number that these characters write: 1 to 18 decimal digits.
pub fn number_in(word: &[u8]) -> Option<usize>
    ensures { result ≡ number_of word.now }
{
    let size = word.len();
    if size == 0 || MOST < size {
        return None;
    }
    let mut n = 0;
    for &c in word {
        if !is_decimal(c) {
            return None;
        }
        n = n * 10 + usize::from(c - b'0');
    }
    Some(n)
}
