// Load zeroes the need, then sets initial chart states, and start values in value and, for inputs, buffer.
ghost use Rattle.std.specs.Prelude.{◌≡◌, ◌<◌, ◌≤◌, length};
ghost use Rattle.rules_walks.specs.Walk.{up_to};
ghost use Rattle.rules_tables.specs.Ids.{elements as «elements_of», variables as «variables_of»};
ghost use Rattle.rules_store.specs.Layout.{need as «need_of»};
ghost use Rattle.rules_store.specs.Load.{zeroes, initial, start_value, start, loaded};

use store_words::network::Network;
use store_words::shape::need;
use store_words::word::{put_buffer, put_chart_state, put_value};
use table_frames::frame::{field, flag};
use table_frames::kind::{BASIC, INPUT};

// The first n words become zero.
fn zero(store: &mut [u32], n: usize)
    requires { n ≤ length store.old }
    ensures { store.new ≡ zeroes n store.old }
{
    store[..n].fill(0);
}

// Each basic element is in its initial state.
fn initial_states(net: &Network, store: &mut [u32])
    ensures { store.new ≡ up_to (initial net.now.table.now) (elements_of net.now.shape) store.old }
{
    for el in 0..net.shape.elements() {
        if flag(net.table, el) == BASIC {
            put_chart_state(store, el, field(net.table, el, 1) as u32);
        }
    }
}

// The start value of variable v, high and low half.
fn start_value(net: &Network, v: usize) -> u32
    requires { v < variables_of net.now.shape }
    ensures { result ≡ start_value net.now.table.now net.now.shape v }
{
    let f = net.variable_frame(v);
    (field(net.table, f, 1) * 65536 + field(net.table, f, 2)) as u32
}

// Variable v has its start value, and an input its buffer too.
fn start_variable(net: &Network, store: &mut [u32], v: usize)
    requires { v < variables_of net.now.shape }
    ensures { store.new ≡ start net.now.table.now net.now.shape v store.old }
{
    let x = start_value(net, v);
    put_value(store, net.shape, v, x);
    if flag(net.table, net.variable_frame(v)) == INPUT {
        put_buffer(store, net.shape, v, x);
    }
}

// Each variable has its start value.
fn start_values(net: &Network, store: &mut [u32])
    ensures { store.new ≡ up_to (start net.now.table.now net.now.shape) (variables_of net.now.shape) store.old }
{
    for v in 0..net.shape.variables() {
        start_variable(net, store, v);
    }
}

// The store as load leaves it; words past the need are not touched.
pub fn load(net: &Network, store: &mut [u32])
    requires { need_of net.now.shape ≤ length store.old }
    ensures { store.new ≡ loaded net.now.table.now net.now.shape store.old }
{
    zero(store, need(net.shape));
    initial_states(net, store);
    start_values(net, store);
}
