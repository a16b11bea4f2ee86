// Chains through the frames of a kind: for each owner its first frame, for each frame the next one of its owner.
ghost use Rattle.std.specs.Prelude.{◌≡◌, ℕ, ◌+◌, ◌<◌, ◌≤◌, length};
ghost use Rattle.rules_tables.specs.Frame.{frames_of};
ghost use Rattle.table_index.specs.Chain.{owner_at, Chained, linked, Apart, Filled};

use table_frames::frame::{field, flag};

// The frames of a kind, n from `first` on, and the entries of their owners, so many from `base` on; the w owners of each flag stand together.
#[derive(Clone, Copy)]
pub struct Group {
    pub first: usize,
    pub n: usize,
    pub w: usize,
    pub base: usize,
    pub owners: usize,
}

// The n entries from `base` on become x.
fn fill(ix: &mut [u16], base: usize, n: usize, x: u16)
    requires { base + n ≤ length ix.old }
    ensures { Filled base n x ix.old ix.new }
{
    ix[base..base + n].fill(x);
}

// The owner of the j-th frame.
#[tactic(auto, unfolding(crate::specs::Chain::owner_at))]
fn owner(t: &[u8], group: Group, j: usize) -> usize
    requires { (group.first + j < frames_of t.now) × (group.w ≤ 256) }
    ensures { result ≡ owner_at t.now group.first group.w j }
{
    let f = group.first + j;
    group.w * flag(t, f) + field(t, f, 0)
}

// The j-th frame is put before those of its owner that are chained.
#[tactic(auto, unfolding(crate::specs::Chain::linked))]
fn link(t: &[u8], ix: &mut [u16], group: Group, j: usize)
    requires { (group.first + j < frames_of t.now) × (frames_of t.now ≤ 4096) × (group.w ≤ 256) × (group.first + j < length ix.old) × (group.base + owner_at t.now group.first group.w j < length ix.old) × (length ix.old < 65536) }
    ensures { ix.new ≡ linked group.first group.base (owner_at t.now group.first group.w j) j ix.old }
{
    let x = group.base + owner(t, group, j);
    let head = ix[x];
    ix[group.first + j] = head;
    ix[x] = j as u16; // stays a cast: `try_from` would have an error that cannot come
}

// Chains the frames of a group, from the last to the first, so that each owner's come in table order.
pub fn chain(t: &[u8], ix: &mut [u16], group: Group)
    requires { (group.first + group.n ≤ frames_of t.now) × (frames_of t.now ≤ 4096) × (group.w ≤ 256) × (4096 ≤ group.base) × (group.base + group.owners ≤ length ix.old) × (length ix.old < 65536) × ((j : ℕ) → j < group.n → owner_at t.now group.first group.w j < group.owners) }
    ensures { Chained (owner_at t.now group.first group.w) group.first group.n group.base group.owners 0 ix.new × Apart group.first (group.first + group.n) group.base (group.base + group.owners) ix.old ix.new }
{
    fill(ix, group.base, group.owners, group.n as u16);
    for j in (0..group.n).rev() {
        link(t, ix, group, j);
    }
}
