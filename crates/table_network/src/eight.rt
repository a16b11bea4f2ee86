// At most eight variables for one event.
ghost use Rattle.std.specs.Prelude.{◌≡◌, not, ◌+◌, ◌<◌, ◌≤◌, length, get_or, set as «set_at»};
ghost use Rattle.rules_walks.specs.Held.{held_to};
ghost use Rattle.rules_tables.specs.Kind.{association, event_output};
ghost use Rattle.rules_tables.specs.Frame.{kind_at};
ghost use Rattle.rules_tables.specs.Place.{count_of};
ghost use Rattle.rules_tables.specs.Fresh.{eight_at_most};
ghost use Rattle.table_network.specs.Counted.{Counted};
ghost use Rattle.table_network.specs.Keys.{slot_of, slotted, Slotting};
ghost use Rattle.table_network.specs.Windows.{in_window};

use crate::front::Front;
use numbers_bits::clear;
use table_frames::frame::{field, flag};
use table_frames::kind::{Kind, OF_INPUT};

// The associations among the first frames, and the events that they are of: the outputs behind the inputs.
#[derive(Clone, Copy)]
pub struct Eight<'a> {
    front: Front<'a>,
    inputs: usize,
    slots: usize,
    ghost few: { (inputs ≤ 4096) × (slots ≤ 8192) },
    ghost slotting: { Slotting front.kinds.table.now inputs front.n },
    ghost all: { slots ≡ inputs + count_of front.kinds.table.now event_output },
}

// Counts one more at i, and tells how many there were.
fn one_more(counts: &mut [u32], i: usize) -> u32
    requires { (i < length counts.old) × (get_or counts.old i 0 ≤ 4096) }
    ensures { (result ≡ get_or counts.old i 0) × (counts.new ≡ set_at counts.old i (get_or counts.old i 0 + 1)) }
{
    let c = counts[i];
    counts[i] = c + 1;
    c
}

impl<'a> Eight<'a> {
    pub fn of(front: &Front<'a>) -> Eight<'a>
        ensures { result.front ≡ front.now }
    {
        let inputs = front.count(Kind::EventInput);
        Eight {
            front: *front,
            inputs,
            slots: inputs + front.count(Kind::EventOutput),
        }
    }

    // The event of association f among all events.
    #[tactic(auto, unfolding(crate::specs::Keys::slot_of))]
    fn slot(&self, f: usize) -> usize
        requires { f < self.now.front.n }
        ensures { result ≡ slot_of self.now.front.kinds.table.now self.now.inputs f }
    {
        let t = self.front.kinds.table;
        let event = field(t, f, 0);
        if flag(t, f) == OF_INPUT {
            event
        } else {
            self.inputs + event
        }
    }

    // The event of association f is one of those from b on that are counted, and has eight variables before it.
    // The associations before f are counted by their events, and then f too.
    fn ninth(&self, counts: &mut [u32], b: usize, f: usize) -> bool
        requires { (f < self.now.front.n) × (kind_at self.now.front.kinds.table.now f ≡ association) × Counted (slotted self.now.front.kinds.table.now self.now.inputs b) counts.old f }
        ensures { (result ≡ not (in_window (eight_at_most self.now.front.kinds.table.now) (slot_of self.now.front.kinds.table.now self.now.inputs) b (length counts.old) f)) × Counted (slotted self.now.front.kinds.table.now self.now.inputs b) counts.new (f + 1) }
    {
        match self.slot(f).checked_sub(b) {
            Some(i) if i < counts.len() => 8 <= one_more(counts, i),
            _ => false,
        }
    }

    // How many frames of the first n come before the first association of a ninth variable, as far as its event is one of those from b on for which there
    // are counts.
    fn window_end(&self, counts: &mut [u32], b: usize, n: usize) -> usize
        requires { n ≤ self.now.front.n }
        ensures { (result ≡ held_to (in_window (eight_at_most self.now.front.kinds.table.now) (slot_of self.now.front.kinds.table.now self.now.inputs) b (length counts.old)) n) × (result ≤ n) }
    {
        clear(counts);
        let (lo, hi) = self.front.first(n).row(Kind::Association);
        for f in lo..hi {
            if self.ninth(counts, b, f) {
                return f;
            }
        }
        n
    }

    // How many frames come before the first association of a ninth variable. A table within its limits takes one pass, no table more than two.
    pub fn end(&self, counts: &mut [u32]) -> usize
        requires { (0 < length counts.old) × (length counts.old ≤ 2048) }
        ensures { (result ≡ held_to (eight_at_most self.now.front.kinds.table.now) self.now.front.n) × (result ≤ self.now.front.n) }
    {
        let mut e = self.front.n;
        let mut b = 0;
        // Stays a `while`: a window is as long as the events that are left need, so the step is not always the same.
        while b < self.slots {
            let w = (self.slots - b).min(counts.len());
            e = self.window_end(&mut counts[..w], b, e);
            b += w;
        }
        e
    }
}
