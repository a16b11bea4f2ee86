// Sets of small numbers as bits, 32 to a word, the lowest first.
#![tactic(auto)]

ghost use Rattle.std.specs.Prelude.{◌≡◌, ◌/◌, ◌<◌, length};
ghost use Rattle.numbers_bits.specs.Bit.{bit_at, raised, in_set, added, Clear};

// Bit j of a word.
#[tactic(auto, unfolding(crate::specs::Bit::bit_at))]
pub fn has_bit(w: u32, j: u32) -> bool
    requires { j < 32 }
    ensures { result ≡ bit_at w j }
{
    (w >> j) % 2 == 1
}

// The word with bit j set.
pub fn with_bit(w: u32, j: u32) -> u32
    requires { j < 32 }
    ensures { result ≡ raised w j }
{
    w | (1 << j)
}

// Puts i into the set, and tells whether it was there.
#[tactic(auto, unfolding(crate::specs::Bit::in_set, crate::specs::Bit::added))]
pub fn mark(m: &mut [u32], i: usize) -> bool
    requires { i / 32 < length m.old }
    ensures { (result ≡ in_set m.old i) × (m.new ≡ added m.old i) }
{
    let p = i / 32;
    let j = (i % 32) as u32; // stays a cast: `try_from` would have an error that cannot come
    let w = m[p];
    m[p] = with_bit(w, j);
    has_bit(w, j)
}

// Takes every number out of the set.
pub fn clear(m: &mut [u32])
    ensures { (length m.new ≡ length m.old) × Clear m.new }
{
    m.fill(0);
}
