// Counts by a key, in a lent list with an entry for each key.
ghost use Rattle.std.specs.Prelude.{◌≡◌, ◌<◌, ◌≤◌, get_or};
ghost use Rattle.rules_walks.specs.Tally.{Tallied, plus_at};
ghost use Rattle.rules_tables.specs.Frame.{frames_of, kind_at};

use crate::frame::kind;

// One more at i, if m has an entry there.
pub fn plus(m: &mut [u16], i: usize)
    requires { get_or m.old i 0 < 65535 }
    ensures { m.new ≡ plus_at m.old i }
{
    if i < m.len() {
        m[i] += 1;
    }
}

// Entry k: how many frames are of kind k.
pub fn counts(t: &[u8]) -> [u16; 12]
    requires { frames_of t.now ≤ 4096 }
    ensures { Tallied (kind_at t.now) 12 result (frames_of t.now) }
{
    let mut m = [0u16; 12];
    for f in 0..t.len() / 12 {
        plus(&mut m, kind(t, f));
    }
    m
}
