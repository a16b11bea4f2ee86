// The waiting event that is taken next.
#![tactic(auto)]

ghost use Rattle.std.specs.Prelude.{◌≡◌, ◌<◌, ◌≤◌, length};
ghost use Rattle.rules_tables.specs.Ids.{inputs as «inputs_of»};
ghost use Rattle.rules_store.specs.Layout.{need};
ghost use Rattle.rules_moves.specs.Least.{key_of, beats as «beats_of», least as «least_of»};
ghost use Rattle.table_index.specs.Leads.{Leads};
ghost use Rattle.store_words.specs.Small.{Small};
ghost use Rattle.moves_least.specs.Waits.{waits_at};

use rules_moves::Key;
use rules_tables::Shape;
use store_words::network::Network;
use store_words::word::{last_update_in, waits};
use table_frames::frame::{field, flag};

fn key_of(net: &Network, store: &[u32], i: usize) -> Key
    requires { (i < inputs_of net.now.shape) × (need net.now.shape ≤ length store.now) }
    ensures { result ≡ key_of net.now.table.now net.now.shape store.now i }
{
    let f = net.input_frame(i);
    let el = field(net.table, f, 0);
    Key {
        last: last_update_in(store, net.shape, i),
        priority: field(net.table, el, 0),
        local: flag(net.table, f),
    }
}

// Event input i against the key h of another: last update before element priority before local priority. What does not decide is not read.
fn beats_at(net: &Network, store: &[u32], i: usize, h: Key) -> bool
    requires { (i < inputs_of net.now.shape) × (need net.now.shape ≤ length store.now) }
    ensures { result ≡ beats_of (key_of net.now.table.now net.now.shape store.now i) h }
{
    let last = last_update_in(store, net.shape, i);
    if last != h.last {
        return last < h.last;
    }
    let f = net.input_frame(i);
    let priority = field(net.table, field(net.table, f, 0), 0);
    if priority != h.priority {
        return priority < h.priority;
    }
    flag(net.table, f) < h.local
}

// The first event input from i on that waits, or n.
fn next_waiting(store: &[u32], shape: Shape, i: usize, n: usize) -> usize
    requires { Small shape × (i ≤ n) × (n ≡ inputs_of shape) × (need shape ≤ length store.now) }
    ensures { Leads (waits_at shape store.now) i result n }
{
    for k in i..n {
        if waits(store, shape, k) {
            return k;
        }
    }
    n
}

// The least of the event inputs from `first` on, which waits, and of those before it, of which none does.
fn best_from(net: &Network, store: &[u32], first: usize, n: usize) -> Option<(usize, Key)>
    requires { (n ≡ inputs_of net.now.shape) × (need net.now.shape ≤ length store.now) × (first < n) × Leads (waits_at net.now.shape store.now) 0 first n }
    ensures { result ≡ least_of net.now.table.now net.now.shape store.now }
{
    let mut best = first;
    let mut h = key_of(net, store, first);
    let mut i = first + 1;
    loop {
        i = next_waiting(store, net.shape, i, n);
        if n <= i {
            break Some((best, h));
        }
        if beats_at(net, store, i, h) {
            best = i;
            h = key_of(net, store, i);
        }
        i += 1;
    }
}

// The least by (last update, element priority, local priority).
pub fn least(net: &Network, store: &[u32]) -> Option<(usize, Key)>
    requires { need net.now.shape ≤ length store.now }
    ensures { result ≡ least_of net.now.table.now net.now.shape store.now }
{
    let n = net.shape.inputs();
    let first = next_waiting(store, net.shape, 0, n);
    if n <= first {
        return None;
    }
    best_from(net, store, first, n)
}
