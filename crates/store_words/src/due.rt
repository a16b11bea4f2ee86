// The next due time, kept by the one writer of due words. Nothing outside this file writes them, but for a load, which zeroes all.
ghost use Rattle.std.specs.Prelude.{◌≡◌, true, ◌<◌, ◌≤◌};
ghost use Rattle.rules_walks.specs.All.{Witness};
ghost use Rattle.rules_tables.specs.Ids.{elements as «elements_of»};
ghost use Rattle.rules_store.specs.Word.{next_due};
ghost use Rattle.rules_store.specs.Due.{due_at, sooner as «sooner_of», earliest as «earliest_of», put_due};
ghost use Rattle.rules_store.specs.Earliest.{another, NextKept};
ghost use Rattle.store_words.specs.Small.{Small};
ghost use Rattle.store_words.specs.Due.{comes_first};

use crate::word::{due_flag, due_time, next_due, put_next, set_due};
use rules_store::NextDue;
use rules_tables::Shape;

// Element el is due at the time `at`.
#[tactic(auto, unfolding(rules_store::specs::Due::due_at))]
pub fn due_at(store: &[u32], el: usize, at: u32) -> bool
    requires { el < 4294967296 }
    ensures { result ≡ due_at store.now at el }
{
    due_flag(store, el) != 0 && due_time(store, el) == at
}

// The time `at`, where nothing else is due or it comes before that.
#[tactic(auto, unfolding(rules_store::specs::Due::sooner, rules_walks::specs::Choose::choose))]
fn sooner(at: u32, next: NextDue) -> NextDue
    ensures { result ≡ sooner_of at next }
{
    if next.due == 0 || at < next.time {
        NextDue { due: 1, time: at }
    } else {
        next
    }
}

// The earliest due time of the first n elements, found by looking.
pub fn earliest(store: &[u32], n: usize) -> NextDue
    requires { n ≤ 4096 }
    ensures { result ≡ earliest_of store.now n }
{
    let mut next = NextDue { due: 0, time: 0 };
    for el in 0..n {
        if due_flag(store, el) != 0 {
            next = sooner(due_time(store, el), next);
        }
    }
    next
}

// An element behind el is due at the time `at`.
fn due_behind(store: &[u32], n: usize, el: usize, at: u32) -> bool
    requires { (el < n) × (n ≤ 4096) }
    ensures { result ≡ true → Witness (another store.now at el) n }
{
    for k in el + 1..n {
        if due_at(store, k, at) {
            return true;
        }
    }
    false
}

// An element that gets this due flag and time comes first: it is due, and nothing else is before.
#[tactic(auto, unfolding(crate::specs::Due::comes_first))]
fn comes_first(flag: u32, at: u32, next: NextDue) -> bool
    ensures { result ≡ comes_first flag at next }
{
    flag != 0 && (next.due == 0 || at <= next.time)
}

// What is next due stays so whatever else element el gets: nothing was due, or another one is due at that time. Of those, one before el at the same time is not
// looked for: then looking finds it.
fn stays(store: &[u32], shape: Shape, el: usize, next: NextDue) -> bool
    requires { Small shape × (el < elements_of shape) × NextKept shape store.now × (next ≡ next_due store.now) }
    ensures { result ≡ true → next.due ≡ 1 → Witness (another store.now next.time el) (elements_of shape) }
{
    if next.due == 0 {
        return true;
    }
    if !due_at(store, el, next.time) {
        return true;
    }
    due_behind(store, shape.elements(), el, next.time)
}

// The one writer of due words: element el gets this due flag and time, and the next due time is kept. Where el was the earliest and no more is, all elements are
// looked through; delays that are due at one time and cleared one after the other find the next behind themselves.
pub fn put_due(store: &mut [u32], shape: Shape, el: usize, flag: u32, at: u32)
    requires { Small shape × (el < elements_of shape) × NextKept shape store.old }
    ensures { store.new ≡ put_due shape el flag at store.old }
{
    let next = next_due(store);
    if comes_first(flag, at, next) {
        set_due(store, el, flag, at);
        put_next(store, NextDue { due: 1, time: at });
        return;
    }
    let same = stays(store, shape, el, next);
    set_due(store, el, flag, at);
    if same {
        return;
    }
    let found = earliest(store, shape.elements());
    put_next(store, found);
}
