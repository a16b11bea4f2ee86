// The parts of elements, counted in one pass.
ghost use Rattle.std.specs.Prelude.{◌≡◌, true, ◌<◌, ◌≤◌};
ghost use Rattle.rules_walks.specs.All.{all_to};
ghost use Rattle.rules_walks.specs.Tally.{Tallied};
ghost use Rattle.rules_tables.specs.Frame.{frames_of};
ghost use Rattle.rules_tables.specs.Form.{form_ok};
ghost use Rattle.table_network.specs.Keys.{part_key};

use crate::class::class_of;
use table_frames::frame::field;
use table_frames::kind::Kind;
use table_frames::kinds::Kinds;
use table_frames::tally::plus;

// No key: of frames that are no part, or of an element that no table within its limits has. Stays a number, and no Option: a tally passes over a key past its
// list by itself.
const FAR: usize = 384;

// The key of a part is its element and its class.
#[tactic(auto, unfolding(crate::specs::Keys::part_key))]
fn part_key(t: &[u8], f: usize) -> usize
    requires { f < frames_of t.now }
    ensures { result ≡ part_key t.now f }
{
    let el = field(t, f, 0);
    match class_of(t, f) {
        Some(c) if el < 64 => 6 * el + c.number(),
        _ => FAR,
    }
}

// Counts the frames from lo to hi by the keys of their parts; those before lo are counted.
fn tally_parts(t: &[u8], m: &mut [u16], lo: usize, hi: usize)
    requires { (lo ≤ hi) × (hi ≤ frames_of t.now) × (frames_of t.now ≤ 4096) × Tallied (part_key t.now) 384 m.old lo }
    ensures { Tallied (part_key t.now) 384 m.new hi }
{
    for f in lo..hi {
        plus(m, part_key(t, f));
    }
}

// Entry 6 el + c, 0 before: how many parts of class c element el has. Where all frames have their form, and so are in order, parts are of three kinds in a row.
pub fn count_parts(kinds: &Kinds, m: &mut [u16], formed: usize)
    requires { (frames_of kinds.now.table.now ≤ 4096) × (all_to (form_ok kinds.now.table.now) formed ≡ true) × Tallied (part_key kinds.now.table.now) 384 m.old 0 }
    ensures { Tallied (part_key kinds.now.table.now) 384 m.new (frames_of kinds.now.table.now) }
{
    let t = kinds.table;
    let at = kinds.starts;
    let n = t.len() / 12;
    if formed == n {
        tally_parts(
            t,
            m,
            at[Kind::EventInput as usize],
            at[Kind::Association as usize],
        );
    } else {
        tally_parts(t, m, 0, n);
    }
}
