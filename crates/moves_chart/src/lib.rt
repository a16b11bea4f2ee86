// The state chart: what moves 2 and 3 look for and leave.
#![tactic(auto)]

ghost use Rattle.std.specs.Prelude.{◌≡◌, ◌+◌, ◌<◌};
ghost use Rattle.rules_walks.specs.First.{one};
ghost use Rattle.rules_tables.specs.Frame.{field_at};
ghost use Rattle.rules_tables.specs.Ids.{transitions as «transitions_of», actions as «actions_of», transition_frame};
ghost use Rattle.table_parts.specs.Found.{found_of};
ghost use Rattle.rules_store.specs.Word.{running_of};
ghost use Rattle.numbers.specs.Bounded.{Bounded};
ghost use Rattle.rules_moves.specs.Chart.{heard as «heard_of», enabled as «enabled_at», transition_of, change as «change_of», go_idle, element_of, state_of};
ghost use Rattle.rules_tables.specs.Actions.{action_of, action_number};

mod guard; // guard.rt: which guard a transition has, and whether it holds

use crate::guard::guard_holds;
use numbers::word::wide;
use rules_store::Running;
use store_words::network::Network;
use store_words::word::{
    chart_state, put_chart_state, put_entered, put_owner, put_running, running_element,
};
use table_frames::frame::field;
use table_frames::kind::NONE;
use table_index::indexed::IndexedNetwork;

// The transition's event is none, or is the current event while live. With || and && the compiled search works out each side for each transition.
fn heard(c: usize, event: usize, live: u32) -> bool
    requires { c < 65536 }
    ensures { result ≡ heard_of c event live }
{
    if c == NONE {
        return true;
    }
    if live == 0 {
        return false;
    }
    c + 1 == event
}

// Transition j hears the event and its guard holds, so it is enabled in the state that it leaves.
fn enabled(net: &Network, store: &[u32], event: usize, live: u32, j: usize) -> bool
    requires { j < transitions_of net.now.shape }
    ensures { result ≡ enabled_at net.now.table.now net.now.shape store.now (field_at net.now.table.now (transition_frame net.now.shape j) 0) event live j }
{
    let f = net.transition_frame(j);
    if !heard(field(net.table, f, 2), event, live) {
        return false;
    }
    guard_holds(net, store, f)
}

// The first enabled transition in table order. Only the transitions from state q are looked at: the index leads from one to the next. Each move of a chart
// searches here: as a walk with `for`, a long run of a ring costs 2.03 times the machine by hand, where tools/bench allows 2.0; as this loop, 1.95.
pub fn find_transition(
    ix: &IndexedNetwork,
    store: &[u32],
    q: usize,
    event: usize,
    live: u32,
) -> Option<usize>
    ensures { result ≡ found_of (transition_of ix.now.net.table.now ix.now.net.shape store.now q event live) }
{
    let n = ix.net.shape.transitions();
    let mut j = ix.first_transition(q);
    loop {
        if n <= j {
            break None;
        }
        if enabled(&ix.net, store, event, live, j) {
            break Some(j);
        }
        j = ix.next_transition(j);
    }
}

// k where state q has a k-th action, else 0.
pub fn action_number(ix: &IndexedNetwork, q: usize, k: u32) -> u32
    ensures { result ≡ action_number ix.now.net.table.now ix.now.net.shape q k }
{
    match ix.action_of(q, wide(k)) {
        Some(_) => k,
        None => 0,
    }
}

// After action j of state q, which is its k-th: k + 1 where the index leads to another, else 0.
pub fn number_after(ix: &IndexedNetwork, q: usize, j: usize, k: u32) -> u32
    requires { (j < actions_of ix.now.net.shape) × (action_of ix.now.net.table.now ix.now.net.shape q k ≡ one j) × (k < 4294967295) }
    ensures { result ≡ action_number ix.now.net.table.now ix.now.net.shape q (k + 1) }
{
    if ix.next_action(j) < ix.net.shape.actions() {
        k + 1
    } else {
        0
    }
}

// Transition j of the running element is made: the state changes, live ends, mode 2, step 0, action 1 or 0.
pub fn change(ix: &IndexedNetwork, store: &mut [u32], r: Running, j: usize)
    requires { (j < transitions_of ix.now.net.shape) × (r ≡ running_of store.old) }
    ensures { store.new ≡ change_of ix.now.net.table.now ix.now.net.shape (element_of store.old) r j store.old }
{
    let el = element_of(store);
    let to = field(ix.net.table, ix.net.transition_frame(j), 1);
    let action = action_number(ix, to, 1);
    put_chart_state(store, el, to as u32);
    put_entered(store, r, action);
}

// The block goes idle.
pub fn go_idle(store: &mut [u32])
    ensures { store.new ≡ go_idle store.old }
{
    put_owner(store, 0, 0);
    put_running(store, Running::rest());
}

// The running element.
pub fn element_of(store: &[u32]) -> usize
    ensures { Bounded 4294967296 (element_of store.now) result }
{
    wide(running_element(store)).saturating_sub(1)
}

// Its present state.
pub fn state_of(store: &[u32]) -> usize
    ensures { result ≡ state_of store.now }
{
    wide(chart_state(store, element_of(store)))
}
