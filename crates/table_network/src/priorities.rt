// The priorities of elements. There are few elements, but 65,536 priorities: a set of 2,048 bits tells of nearly every priority that no earlier element
// has it; where it does not, the earlier ones are looked at one by one.
ghost use Rattle.std.specs.Prelude.{◌≡◌, ◌+◌, ◌<◌, ◌≤◌};
ghost use Rattle.rules_walks.specs.All.{any_to};
ghost use Rattle.rules_walks.specs.Held.{held_to};
ghost use Rattle.rules_tables.specs.Kind.{element};
ghost use Rattle.rules_tables.specs.Frame.{frames_of, field_at};
ghost use Rattle.rules_tables.specs.Fresh.{fresh};
ghost use Rattle.numbers_bits.specs.Marked.{Marked};
ghost use Rattle.table_network.specs.Keys.{same_priority, filtered};

use crate::front::Front;
use numbers_bits::mark;
use table_frames::frame::field;
use table_frames::kind::Kind;

// A frame before f has the number p where elements have their priority, which is that of f.
fn priority_before(t: &[u8], f: usize, p: usize) -> bool
    requires { (f < frames_of t.now) × (p ≡ field_at t.now f 0) }
    ensures { result ≡ any_to (same_priority t.now f) f }
{
    (0..f).any(|g| field(t, g, 0) == p)
}

// The same. The set has the last eleven bits of the numbers before f, and then those of f too.
fn shared_priority(t: &[u8], set: &mut [u32], f: usize) -> bool
    requires { (f < frames_of t.now) × Marked (filtered t.now) 64 set.old f }
    ensures { (result ≡ any_to (same_priority t.now f) f) × Marked (filtered t.now) 64 set.new (f + 1) }
{
    let p = field(t, f, 0);
    mark(set, p % 2048) && priority_before(t, f, p)
}

// How many frames of the first n come before the first element with the priority of an earlier one. Elements come first.
pub fn priorities_end(front: &Front) -> usize
    ensures { (result ≡ held_to (fresh element front.now.kinds.table.now) front.now.n) × (result ≤ front.now.n) }
{
    let t = front.kinds.table;
    let (_, hi) = front.row(Kind::Element);
    let mut set = [0u32; 64];
    for f in 0..hi {
        if shared_priority(t, &mut set, f) {
            return f;
        }
    }
    front.n
}
