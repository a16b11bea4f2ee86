// Numbers in bytes, high byte first.
ghost use Rattle.std.specs.Prelude.{◌≡◌, ◌+◌, ◌<◌, length, get_or};
ghost use Rattle.std.proofs.lemmas.List.Edits.{sets};
ghost use Rattle.numbers.specs.Bounded.{Bounded};
ghost use Rattle.rules_numbers.specs.Bytes.{half_at, word_at, half_bytes, word_bytes};

// A cast of an element asks that it fits; of a parameter it does not.
pub fn wide(b: u8) -> usize
    ensures { Bounded 256 b result }
{
    usize::from(b)
}

// The byte at `at`.
pub fn byte_at(s: &[u8], at: usize) -> usize
    requires { at < length s.now }
    ensures { Bounded 256 (get_or s.now at 0) result }
{
    wide(s[at])
}

// The 16-bit number at `at`.
#[tactic(auto, unfolding(rules_numbers::specs::Bytes::half_at))]
pub fn half_at(s: &[u8], at: usize) -> usize
    requires { at + 1 < length s.now }
    ensures { Bounded 65536 (half_at s.now at) result }
{
    usize::from(u16::from_be_bytes([s[at], s[at + 1]]))
}

// The 32-bit number at `at`.
#[tactic(auto, unfolding(rules_numbers::specs::Bytes::word_at, rules_numbers::specs::Bytes::half_at))]
pub fn word_at(s: &[u8], at: usize) -> u32
    requires { at + 3 < length s.now }
    ensures { Bounded 4294967296 (word_at s.now at) result }
{
    u32::from_be_bytes([s[at], s[at + 1], s[at + 2], s[at + 3]])
}

// Writes the 16-bit number h at `at`.
pub fn put_half(s: &mut [u8], at: usize, h: u16)
    requires { at + 1 < length s.old }
    ensures { s.new ≡ sets s.old at (half_bytes h) }
{
    s[at..at + 2].copy_from_slice(&h.to_be_bytes());
}

// Writes the 32-bit number w at `at`.
pub fn put_word(s: &mut [u8], at: usize, w: u32)
    requires { at + 3 < length s.old }
    ensures { s.new ≡ sets s.old at (word_bytes w) }
{
    s[at..at + 4].copy_from_slice(&w.to_be_bytes());
}
