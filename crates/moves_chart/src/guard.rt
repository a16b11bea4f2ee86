// The guards of a transition: which one a frame has, and whether it holds.
ghost use Rattle.std.specs.Prelude.{◌≡◌, ℕ, ◌<◌};
ghost use Rattle.rules_tables.specs.Frame.{frames_of};
ghost use Rattle.rules_tables.specs.Ids.{transition_frame};
ghost use Rattle.store_words.specs.Small.{Small};
ghost use Rattle.rules_moves.specs.Chart.{guard_holds};
ghost use Rattle.rules_moves.specs.Guard.{guard_at, signed_value};
ghost use Rattle.moves_chart.specs.Narrow.{Narrow};

use numbers::word::to_signed;
use rules_moves::Guard;
use rules_tables::Shape;
use store_words::network::Network;
use store_words::word::value_of;
use table_frames::frame::{field, flag};

// Where a transition's frame names its variables d and e.
const D: usize = 3;

const E: usize = 4;

// The guard of the transition in frame f, by its number.
fn guard_at(t: &[u8], f: usize) -> Guard
    requires { f < frames_of t.now }
    ensures { (result ≡ guard_at t.now f) × Narrow result }
{
    let number = flag(t, f);
    match number {
        0 => Guard::Always,
        1 => Guard::Equals(field(t, f, D), field(t, f, E)),
        2 => Guard::Differs(field(t, f, D), field(t, f, E)),
        3 => Guard::Below(field(t, f, D), field(t, f, E)),
        _ => Guard::AtMost(field(t, f, D), field(t, f, E)), // 4: the check lets no greater number through
    }
}

// The signed value of variable v.
fn signed_value(store: &[u32], shape: Shape, v: usize) -> i32
    requires { Small shape × (v < 65536) }
    ensures { result ≡ signed_value shape store.now v }
{
    to_signed(value_of(store, shape, v))
}

// The guard of the transition in frame f holds. One that holds always has no variables, so that none is read.
pub fn guard_holds(net: &Network, store: &[u32], f: usize) -> bool
    requires { f < frames_of net.now.table.now }
    ensures { (j : ℕ) → f ≡ transition_frame net.now.shape j → result ≡ guard_holds net.now.table.now net.now.shape store.now j }
{
    let shape = net.shape;
    let guard = guard_at(net.table, f);
    match guard {
        Guard::Always => true,
        Guard::Equals(d, e) => signed_value(store, shape, d) == signed_value(store, shape, e),
        Guard::Differs(d, e) => signed_value(store, shape, d) != signed_value(store, shape, e),
        Guard::Below(d, e) => signed_value(store, shape, d) < signed_value(store, shape, e),
        Guard::AtMost(d, e) => signed_value(store, shape, d) <= signed_value(store, shape, e),
    }
}
