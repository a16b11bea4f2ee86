// Whether a store is well formed: its elements, event inputs and variables, and all of it.
ghost use Rattle.std.specs.Prelude.{◌≡◌, ◌<◌, ◌≤◌};
ghost use Rattle.rules_tables.specs.Frame.{frames_of};
ghost use Rattle.rules_walks.specs.All.{all_to};
ghost use Rattle.rules_tables.specs.Ids.{elements as «elements_of», inputs as «inputs_of», variables as «variables_of»};
ghost use Rattle.store_words.specs.Small.{Small};
ghost use Rattle.rules_store.specs.WellFormed.{chart_ok, due_ok, element_ok, input_ok, variable_ok, parts_ok, well_formed};

use crate::header::{next_ok, running_ok, spares_ok};
use numbers::word::wide;
use rules_tables::Shape;
use store_words::network::Network;
use store_words::word::{
    LARGEST_DUE, LARGEST_TIME, birth, buffer_of, chart_state, due_flag, due_time, last_update,
    running, time, waiting_flag,
};
use table_frames::frame::{field, flag};
use table_frames::kind::{BASIC, DELAY, INPUT};

// A basic element's chart state is its own, others have 0.
#[tactic(auto, unfolding(rules_store::specs::WellFormed::chart_ok))]
fn chart_ok(net: &Network, store: &[u32], el: usize) -> bool
    requires { el < elements_of net.now.shape }
    ensures { result ≡ chart_ok net.now.table.now net.now.shape store.now el }
{
    let q = wide(chart_state(store, el));
    if flag(net.table, el) != BASIC {
        return q == 0;
    }
    q < net.shape.states() && field(net.table, net.state_frame(q), 0) == el
}

// A due flag is only on a delay, due from now to 4,294,967,294, else zeros.
#[tactic(auto, unfolding(rules_store::specs::WellFormed::due_ok))]
fn due_ok(t: &[u8], store: &[u32], el: usize) -> bool
    requires { el < frames_of t.now × (frames_of t.now ≤ 4096) }
    ensures { result ≡ due_ok t.now store.now el }
{
    let due = due_time(store, el);
    let flagged = due_flag(store, el);
    if flagged == 0 {
        return due == 0;
    }
    flagged == 1 && flag(t, el) == DELAY && time(store) <= due && due <= LARGEST_DUE
}

#[tactic(auto, unfolding(rules_store::specs::WellFormed::element_ok))]
fn element_ok(net: &Network, store: &[u32], el: usize) -> bool
    requires { el < elements_of net.now.shape }
    ensures { result ≡ element_ok net.now.table.now net.now.shape store.now el }
{
    chart_ok(net, store, el) && due_ok(net.table, store, el)
}

fn elements_ok(net: &Network, store: &[u32]) -> bool
    ensures { result ≡ all_to (element_ok net.now.table.now net.now.shape store.now) (elements_of net.now.shape) }
{
    (0..net.shape.elements()).all(|el| element_ok(net, store, el))
}

// A waiting event has birth ≤ last update ≤ now, others zeros.
#[tactic(auto, unfolding(rules_store::specs::WellFormed::input_ok))]
fn input_ok(store: &[u32], shape: Shape, i: usize) -> bool
    requires { Small shape × (i < 65536) }
    ensures { result ≡ input_ok shape store.now i }
{
    let born = birth(store, shape, i);
    let last = last_update(store, shape, i);
    let flagged = waiting_flag(store, shape, i);
    if flagged == 0 {
        return born == 0 && last == 0;
    }
    flagged == 1 && born <= last && last <= time(store)
}

fn inputs_ok(store: &[u32], shape: Shape) -> bool
    requires { Small shape }
    ensures { result ≡ all_to (input_ok shape store.now) (inputs_of shape) }
{
    (0..shape.inputs()).all(|i| input_ok(store, shape, i))
}

// The buffer of a variable that is not an input is 0.
#[tactic(auto, unfolding(rules_store::specs::WellFormed::variable_ok))]
fn variable_ok(net: &Network, store: &[u32], v: usize) -> bool
    requires { v < variables_of net.now.shape }
    ensures { result ≡ variable_ok net.now.table.now net.now.shape store.now v }
{
    flag(net.table, net.variable_frame(v)) == INPUT || buffer_of(store, net.shape, v) == 0
}

fn variables_ok(net: &Network, store: &[u32]) -> bool
    ensures { result ≡ all_to (variable_ok net.now.table.now net.now.shape store.now) (variables_of net.now.shape) }
{
    (0..net.shape.variables()).all(|v| variable_ok(net, store, v))
}

// Elements, event inputs and variables.
#[tactic(auto, unfolding(rules_store::specs::WellFormed::parts_ok))]
fn parts_ok(net: &Network, store: &[u32]) -> bool
    ensures { result ≡ parts_ok net.now.table.now net.now.shape store.now }
{
    elements_ok(net, store) && inputs_ok(store, net.shape) && variables_ok(net, store)
}

// The store is well formed.
#[tactic(auto, unfolding(rules_store::specs::WellFormed::well_formed))]
pub fn well_formed(net: &Network, store: &[u32]) -> bool
    ensures { result ≡ well_formed net.now.table.now net.now.shape store.now }
{
    time(store) <= LARGEST_TIME
        && spares_ok(store)
        && next_ok(store, net.shape)
        && running_ok(net, store, running(store))
        && parts_ok(net, store)
}
