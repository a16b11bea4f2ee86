// Counts that end, and the room in a text.
ghost use Rattle.std.specs.Prelude.{◌≡◌, ◌+◌, leb, length};
ghost use Rattle.session_dialogue.specs.Standing.{one_more};

// One more, up to `most`.
#[tactic(auto, unfolding(crate::specs::Standing::one_more))]
pub fn one_more(n: usize, most: usize) -> usize
    ensures { result ≡ one_more n most }
{
    if n < most { n + 1 } else { most }
}

// There is room for n bytes from `at` on.
pub fn has_room(text: &[u8], at: usize, n: usize) -> bool
    ensures { result ≡ leb (at + n) (length text.now) }
{
    n <= text.len() && at <= text.len() - n
}
