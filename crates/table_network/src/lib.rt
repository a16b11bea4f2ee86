// Refusal 4: the network rules. Each rule is a pass over the frames of its kind among those that have their form and refer rightly; it tells how many
// frames keep the rule before the first that does not, and the next pass looks at those alone.
#![tactic(auto)]

ghost use Rattle.std.specs.Prelude.{◌≡◌, true, ◌<◌, ◌≤◌, length};
ghost use Rattle.rules_walks.specs.All.{all_to};
ghost use Rattle.rules_walks.specs.Held.{held_to};
ghost use Rattle.rules_tables.specs.Kind.{association, event_connection, data_connection};
ghost use Rattle.rules_tables.specs.Frame.{frames_of};
ghost use Rattle.rules_tables.specs.Form.{form_ok};
ghost use Rattle.rules_tables.specs.Reference.{refers_ok};
ghost use Rattle.rules_tables.specs.Fresh.{fresh, eight_at_most};
ghost use Rattle.rules_tables.specs.Network.{rules_ok};
ghost use Rattle.table_frames.specs.StartsTo.{StartsTo};

mod class;
mod eight;
mod element;
mod fresh;
mod front;
mod parts;
mod priorities;
mod shapes;

use eight::Eight;
use fresh::Fresh;
use front::Front;
use priorities::priorities_end;
use shapes::shapes_end;
use table_frames::kind::Kind;
use table_frames::kinds::Kinds;

// How many frames, from the first on and of the first n, keep the network rules. The first m frames have their form, and the first n refer rightly.
// Entry k of `from` tells how many of the first m have a kind below k.
// To clear a set costs a small table more than all else, so it has a small one. The large one takes 6 KB of the stack,
// below the index of a call that makes one.
pub fn network_end(kinds: &Kinds, from: &[usize; 13], m: usize, n: usize) -> usize
    requires { StartsTo kinds.now.table.now m from.now × (n ≤ m) × (m ≤ frames_of kinds.now.table.now) × (frames_of kinds.now.table.now ≤ 4096) × (all_to (form_ok kinds.now.table.now) m ≡ true) × (all_to (refers_ok kinds.now.table.now) n ≡ true) }
    ensures { result ≡ held_to (rules_ok kinds.now.table.now) n }
{
    let front = Front {
        kinds: *kinds,
        from,
        n,
    };
    if kinds.table.len() <= SMALL {
        rules_end(&front, &mut [0u32; 32], m)
    } else {
        rules_end(&front, &mut [0u32; 1536], m)
    }
}

// The bytes of 64 frames: pairs of their ids have at most 32 times 32 keys.
const SMALL: usize = 768;

// The same with a set of any size; each rule that needs it clears what it needs of it.
// The passes stay one line each and no list of closures: each of them needs what the one before left, and some need the set. Its bounds stay clauses: a type
// round a lent slice would be opened at each use.
fn rules_end(front: &Front, set: &mut [u32], m: usize) -> usize
    requires { (all_to (form_ok front.now.kinds.table.now) m ≡ true) × (0 < length set.old) × (length set.old ≤ 2048) }
    ensures { result ≡ held_to (rules_ok front.now.kinds.table.now) front.now.n }
{
    let front = front.first(priorities_end(front));
    let front = front.first(shapes_end(&front, m));
    let front = front.first(Fresh::of(&front, Kind::EventInput).end(set));
    connections_end(&front, set)
}

// The rules of associations and connections.
fn connections_end(front: &Front, set: &mut [u32]) -> usize
    requires { (0 < length set.old) × (length set.old ≤ 2048) }
    ensures { result ≡ held_to (fresh data_connection front.now.kinds.table.now) (held_to (fresh event_connection front.now.kinds.table.now) (held_to (eight_at_most front.now.kinds.table.now) (held_to (fresh association front.now.kinds.table.now) front.now.n))) }
{
    let front = front.first(Fresh::of(front, Kind::Association).end(set));
    let front = front.first(Eight::of(&front).end(set));
    let front = front.first(Fresh::of(&front, Kind::EventConnection).end(set));
    Fresh::of(&front, Kind::DataConnection).end(set)
}
