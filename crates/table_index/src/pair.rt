// Partners: the k-th frames of an element on both sides belong together. One pass finds them all.
ghost use Rattle.std.specs.Prelude.{◌≡◌, ℕ, ◌+◌, ◌<◌, ◌≤◌, length, get_or};
ghost use Rattle.rules_tables.specs.Frame.{frames_of, field_at};
ghost use Rattle.table_index.specs.Chain.{Apart};
ghost use Rattle.table_index.specs.Pair.{advanced, paired, Pairing, partner_at};

use table_frames::frame::field;
use table_parts::belongs;

// Of the n frames from `first` on, those with this flag.
#[derive(Clone, Copy)]
pub struct Side {
    pub first: usize,
    pub n: usize,
    pub flag: usize,
}

// The entry at p, which leads to one of the m frames from `other` on, or to their end, leads to the next one.
#[tactic(auto, unfolding(crate::specs::Pair::advanced, rules_walks::specs::Choose::choose))]
fn advance(ix: &mut [u16], other: usize, m: usize, p: usize)
    requires { (p < length ix.old) × (other + m ≤ length ix.old) }
    ensures { ix.new ≡ advanced other m p ix.old }
{
    let o = usize::from(ix[p]);
    if o < m {
        ix[p] = ix[other + o];
    }
}

// The i-th frame of the side gets as its partner the one that its element's entry leads to; where it has the side's flag the entry goes on.
#[tactic(auto, unfolding(crate::specs::Pair::paired, rules_walks::specs::Choose::choose))]
fn pair_one(
    t: &[u8],
    ix: &mut [u16],
    side: Side,
    other: Side,
    heads: usize,
    partners: usize,
    i: usize,
)
    requires { (side.first + i < frames_of t.now) × (heads + field_at t.now (side.first + i) 0 < length ix.old) × (partners + i < length ix.old) × (other.first + other.n ≤ length ix.old) }
    ensures { ix.new ≡ paired t.now side.first side.flag other.first other.n heads partners (field_at t.now (side.first + i) 0) i ix.old }
{
    let el = field(t, side.first + i, 0);
    let head = ix[heads + el];
    ix[partners + i] = head;
    if belongs(t, side.first, side.flag, el, i) {
        advance(ix, other.first, other.n, heads + el);
    }
}

// The frames of one side get their partners on the other.
pub fn pair(t: &[u8], ix: &mut [u16], side: Side, other: Side, heads: usize, partners: usize)
    requires { (side.first + side.n ≤ frames_of t.now) × (other.first + other.n ≤ heads) × (heads + 64 ≤ partners) × (partners + side.n ≤ length ix.old) × ((i : ℕ) → i < side.n → field_at t.now (side.first + i) 0 < 64) × Pairing t.now side.first side.flag other.first other.n other.flag heads partners 0 ix.old }
    ensures { ((i : ℕ) → i < side.n → get_or ix.new (partners + i) 0 ≡ partner_at t.now side.first side.flag other.first other.n other.flag i) × Apart heads (heads + 64) partners (partners + side.n) ix.old ix.new }
{
    for i in 0..side.n {
        pair_one(t, ix, side, other, heads, partners, i);
    }
}
