// What no two frames of a kind may share, found by keys and a set of bits.
ghost use Rattle.std.specs.Prelude.{◌≡◌, not, ◌+◌, ◌*◌, ◌<◌, ◌≤◌, length};
ghost use Rattle.rules_walks.specs.Held.{held_to};
ghost use Rattle.rules_tables.specs.Frame.{kind_at};
ghost use Rattle.rules_tables.specs.Fresh.{fresh};
ghost use Rattle.table_frames.specs.Kind.{kind_number};
ghost use Rattle.numbers_bits.specs.Marked.{Marked};
ghost use Rattle.table_network.specs.Keys.{pair_key, key_at, keyed, Shared, Paired};
ghost use Rattle.table_network.specs.Windows.{in_window};

use crate::front::Front;
use numbers_bits::{clear, mark};
use table_frames::frame::{field, flag};
use table_frames::kind::Kind;

// The frames of one kind among the first. Their keys are pairs of one of so many x and one of so many y.
#[derive(Clone, Copy)]
pub struct Fresh<'a> {
    front: Front<'a>,
    kind: Kind,
    xs: usize,
    ys: usize,
    ghost paired: { Paired (kind_number kind) front.kinds.table.now front.n xs ys },
}

// How many x and y the keys of a kind have. Local priorities of event inputs: element and priority, of which each element has 256. Associations: variable
// and event; the variable tells the flag. Event connections: event output and event input. Data connections: their destinations alone.
fn pairs_of(front: &Front, kind: Kind) -> (usize, usize)
    requires { Shared (kind_number kind) }
    ensures { Paired (kind_number kind) front.now.kinds.table.now front.now.n result.0 result.1 }
{
    match kind {
        Kind::EventInput => (front.count(Kind::Element), 256),
        Kind::Association => (
            front.count(Kind::Variable),
            front
                .count(Kind::EventInput)
                .max(front.count(Kind::EventOutput)),
        ),
        Kind::EventConnection => (
            front.count(Kind::EventOutput),
            front.count(Kind::EventInput),
        ),
        _ => (front.count(Kind::Variable), 1),
    }
}

// y beside x, where there are ys y.
fn pair_key(ys: usize, x: usize, y: usize) -> usize
    requires { (ys ≤ 4096) × (x < 65536) × (y < 65536) }
    ensures { result ≡ pair_key ys x y }
{
    x * ys + y
}

impl<'a> Fresh<'a> {
    pub fn of(front: &Front<'a>, kind: Kind) -> Fresh<'a>
        requires { Shared (kind_number kind) }
        ensures { (result.kind ≡ kind) × (result.front ≡ front.now) }
    {
        let (xs, ys) = pairs_of(front, kind);
        Fresh {
            front: *front,
            kind,
            xs,
            ys,
        }
    }

    // The key of frame f.
    #[tactic(auto, unfolding(crate::specs::Keys::key_at))]
    fn key(&self, f: usize) -> usize
        requires { f < self.now.front.n }
        ensures { result ≡ key_at (kind_number self.now.kind) self.now.front.kinds.table.now self.now.ys f }
    {
        let t = self.front.kinds.table;
        match self.kind {
            Kind::EventInput => pair_key(self.ys, field(t, f, 0), flag(t, f)),
            Kind::Association => pair_key(self.ys, field(t, f, 1), field(t, f, 0)),
            Kind::EventConnection => pair_key(self.ys, field(t, f, 0), field(t, f, 1)),
            _ => field(t, f, 1),
        }
    }

    // The key of frame f is one of those from b on that the set has room for, and an earlier frame of the kind has it.
    // The set has the keys of the frames of the kind before f, and then that of f too.
    fn repeats(&self, set: &mut [u32], b: usize, f: usize) -> bool
        requires { (f < self.now.front.n) × (kind_at self.now.front.kinds.table.now f ≡ kind_number self.now.kind) × Marked (keyed (kind_number self.now.kind) self.now.front.kinds.table.now self.now.ys b) (length set.old) set.old f }
        ensures { (result ≡ not (in_window (fresh (kind_number self.now.kind) self.now.front.kinds.table.now) (key_at (kind_number self.now.kind) self.now.front.kinds.table.now self.now.ys) b (32 * length set.old) f)) × Marked (keyed (kind_number self.now.kind) self.now.front.kinds.table.now self.now.ys b) (length set.old) set.new (f + 1) }
    {
        match self.key(f).checked_sub(b) {
            Some(i) if i / 32 < set.len() => mark(set, i),
            _ => false,
        }
    }

    // How many frames of the first n come before the first of the kind that shares what it may not, as far as its key is one of those from b on that the
    // set has room for.
    #[inline(always)] // so that each kind has its own pass, with no look at the kind for each frame
    fn window_end(&self, set: &mut [u32], b: usize, n: usize) -> usize
        requires { n ≤ self.now.front.n }
        ensures { (result ≡ held_to (in_window (fresh (kind_number self.now.kind) self.now.front.kinds.table.now) (key_at (kind_number self.now.kind) self.now.front.kinds.table.now self.now.ys) b (32 * length set.old)) n) × (result ≤ n) }
    {
        clear(set);
        let (lo, hi) = self.front.first(n).row(self.kind);
        for f in lo..hi {
            if self.repeats(set, b, f) {
                return f;
            }
        }
        n
    }

    // How many frames come before the first of the kind that shares what it may not.
    // Stays beside `Eight::end`, as `window_end` does: one function for both would be a trait that has as ghost members the rule, the key, what is kept of
    // the frames before and how it grows. That is more to read than the two loops.
    // A table within its limits has one window of keys, or two; each takes a pass.
    #[inline(always)] // as `window_end`
    pub fn end(&self, set: &mut [u32]) -> usize
        requires { (0 < length set.old) × (length set.old ≤ 2048) }
        ensures { (result ≡ held_to (fresh (kind_number self.now.kind) self.now.front.kinds.table.now) self.now.front.n) × (result ≤ self.now.front.n) }
    {
        let keys = self.xs * self.ys;
        let mut e = self.front.n;
        let mut b = 0;
        // Stays a `while`: a window is as long as the keys that are left need, so the step is not always the same.
        while b < keys {
            let words = ((keys - b) / 32 + 1).min(set.len());
            e = self.window_end(&mut set[..words], b, e);
            b += 32 * words;
        }
        e
    }
}
