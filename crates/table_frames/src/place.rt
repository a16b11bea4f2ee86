// Where each kind begins, in any table.
ghost use Rattle.std.specs.Prelude.{◌≤◌};
ghost use Rattle.rules_tables.specs.Frame.{frames_of};
ghost use Rattle.rules_tables.specs.Place.{Starts};

use crate::tally::counts;

// Entry k: how many frames have a kind below k.
pub fn starts(t: &[u8]) -> [usize; 13]
    requires { frames_of t.now ≤ 4096 }
    ensures { Starts t.now result }
{
    let c = counts(t);
    let mut s = [0usize; 13];
    for k in 0..12 {
        s[k + 1] = s[k] + usize::from(c[k]);
    }
    s
}
