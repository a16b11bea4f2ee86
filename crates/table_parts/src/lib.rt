// The parts of an element, and the actions of a state, in table order.
#![tactic(auto)]

ghost use Rattle.std.specs.Prelude.{◌≡◌, ◌+◌, ◌<◌, ◌≤◌};
ghost use Rattle.rules_tables.specs.Frame.{frames_of};
ghost use Rattle.rules_tables.specs.Owned.{belongs as «belongs_at», rank as «rank_of», nth as «nth_of»};
ghost use Rattle.table_parts.specs.Found.{found_of};

use table_frames::frame::{field, flag};

// In place of a flag: whatever flag it has. It stays a number as in the definitions: a flag is a byte, so none is 256, and the loops compare one number.
pub const ANY: usize = 256;

// The j-th frame from `first` on belongs to x and has flag g.
#[tactic(auto, unfolding(rules_tables::specs::Owned::belongs))]
pub fn belongs(t: &[u8], first: usize, g: usize, x: usize, j: usize) -> bool
    requires { first + j < frames_of t.now }
    ensures { result ≡ belongs_at t.now first g x j }
{
    (g == ANY || flag(t, first + j) == g) && field(t, first + j, 0) == x
}

// How many of the frames before the j-th do.
pub fn rank(t: &[u8], first: usize, g: usize, x: usize, j: usize) -> usize
    requires { first + j ≤ frames_of t.now }
    ensures { (result ≡ rank_of t.now first g x j) × (result ≤ j) }
{
    let mut c = 0;
    for i in 0..j {
        if belongs(t, first, g, x, i) {
            c += 1;
        }
    }
    c
}

// The k-th of them, counted from 0, among n frames.
pub fn nth(t: &[u8], first: usize, n: usize, g: usize, x: usize, k: usize) -> Option<usize>
    requires { first + n ≤ frames_of t.now }
    ensures { result ≡ found_of (nth_of t.now first n g x k) }
{
    let mut c = 0;
    for j in 0..n {
        if belongs(t, first, g, x, j) {
            if c == k {
                return Some(j);
            }
            c += 1;
        }
    }
    None
}
