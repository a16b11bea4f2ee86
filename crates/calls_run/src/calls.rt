// Advance and arrival.
ghost use Rattle.std.specs.Prelude.{◌≡◌, true, ◌<◌, eqb, ltb, length};
ghost use Rattle.rules_walks.specs.Pick.{either};
ghost use Rattle.rules_walks.specs.Walk.{up_to};
ghost use Rattle.rules_tables.specs.Ids.{elements as «elements_of», associations as «associations_of»};
ghost use Rattle.rules_tables.specs.Lawful.{Lawful};
ghost use Rattle.table_index.specs.Index.{Owners};
ghost use Rattle.rules_store.specs.Word.{next_due};
ghost use Rattle.rules_store.specs.Earliest.{NextKept};
ghost use Rattle.rules_calls.specs.Calls.{expired, expire, advanced, wrong_time, beyond_due, give, arrived, of_source, value_count as «value_count_of»};

use moves_fire::{fire, fire_by};
use rules_moves::Voice;
use rules_tables::Shape;
use store_words::due::{due_at, put_due};
use store_words::network::Network;
use store_words::word::{LARGEST_TIME, next_due, put_time, put_value, time};
use table_frames::frame::{field, flag};
use table_frames::kind::{OF_OUTPUT, SOURCE};
use table_index::index::SIZE;
use table_index::indexed::IndexedNetwork;
use table_parts::{ANY, nth, rank};

// Delay el, due at the time `to`, fires with that birth and is cleared.
fn expire_delay(ix: &IndexedNetwork, store: &mut [u32], el: usize, to: u32)
    requires { (el < elements_of ix.now.net.shape) × Lawful ix.now.net.table.now ix.now.net.shape × NextKept ix.now.net.shape store.old }
    ensures { store.new ≡ expired ix.now.net.table.now ix.now.net.shape to el store.old }
{
    let Some(o) = nth(
        ix.net.table,
        ix.net.shape.inputs_end,
        ix.net.shape.outputs(),
        ANY,
        el,
        0,
    ) else {
        put_due(store, ix.net.shape, el, 0, 0);
        return;
    };
    fire(ix, store, o, to, to);
    put_due(store, ix.net.shape, el, 0, 0);
}

// Advance sets now, then fires, with birth `to`, each delay due then and clears it.
fn advance_by(ix: &IndexedNetwork, store: &mut [u32], to: u32)
    requires { Lawful ix.now.net.table.now ix.now.net.shape × NextKept ix.now.net.shape store.old }
    ensures { store.new ≡ advanced ix.now.net.table.now ix.now.net.shape to store.old }
{
    put_time(store, to);
    expire_all(ix, store, to);
}

fn expire_all(ix: &IndexedNetwork, store: &mut [u32], to: u32)
    requires { Lawful ix.now.net.table.now ix.now.net.shape × NextKept ix.now.net.shape store.old }
    ensures { store.new ≡ up_to (expire ix.now.net.table.now ix.now.net.shape to) (elements_of ix.now.net.shape) store.old }
{
    for el in 0..ix.net.shape.elements() {
        if due_at(store, el, to) {
            expire_delay(ix, store, el, to);
        }
    }
}

// A time before now or above the largest.
#[tactic(auto, unfolding(rules_calls::specs::Calls::wrong_time))]
pub fn wrong_time(store: &[u32], to: u32) -> bool
    ensures { result ≡ wrong_time store.now to }
{
    to < time(store) || LARGEST_TIME < to
}

// A time beyond the due time of a delay, which is one beyond the next due time.
pub fn beyond_due(store: &[u32], shape: Shape, to: u32) -> bool
    requires { NextKept shape store.now }
    ensures { result ≡ beyond_due shape store.now to }
{
    let next = next_due(store);
    next.due != 0 && next.time < to
}

// Nothing is due by the time `to`, as the store tells it.
fn nothing_due(store: &[u32], to: u32) -> bool
    ensures { result ≡ either (eqb (next_due store.now).due 0) (ltb to (next_due store.now).time) }
{
    let next = next_due(store);
    next.due == 0 || to < next.time
}

// The values go into the associated output variables in table order.
fn give_all(ix: &IndexedNetwork, store: &mut [u32], o: usize, values: &[u32])
    requires { length values.now ≡ value_count_of ix.now.net.table.now ix.now.net.shape o }
    ensures { store.new ≡ up_to (give ix.now.net.table.now ix.now.net.shape o values.now) (associations_of ix.now.net.shape) store.old }
{
    for (k, j) in ix.associations_of(OF_OUTPUT, o).enumerate() {
        let v = field(ix.net.table, ix.net.association_frame(j), 1);
        put_value(store, ix.net.shape, v, values[k]);
    }
}

// Arrival puts its values into the associated output variables, then fires with the given birth. A source's event speaks by these associations.
fn arrive_by(ix: &IndexedNetwork, store: &mut [u32], o: usize, birth: u32, values: &[u32])
    requires { (of_source ix.now.net.table.now ix.now.net.shape o ≡ true) × (length values.now ≡ value_count_of ix.now.net.table.now ix.now.net.shape o) }
    ensures { store.new ≡ arrived ix.now.net.table.now ix.now.net.shape o birth values.now store.old }
{
    let at = time(store);
    give_all(ix, store, o, values);
    let w = Voice {
        flag: OF_OUTPUT,
        event: o,
    };
    fire_by(ix, store, o, w, birth, at);
}

// The index of the table is in a frame of its own and not in that of the call, below which the table was checked: together they would take more than 24 KB of the
// stack. So neither this function nor `arrive` is built into its caller.
#[inline(never)]
fn advance_due(net: &Network, store: &mut [u32], to: u32)
    requires { Lawful net.now.table.now net.now.shape × Owners net.now.table.now net.now.shape × NextKept net.now.shape store.old }
    ensures { store.new ≡ advanced net.now.table.now net.now.shape to store.old }
{
    let mut entries = [0u16; SIZE];
    let ix = IndexedNetwork::new(*net, &mut entries);
    advance_by(&ix, store, to);
}

// Time passes to `to`. Where nothing is due by then no element is looked at, and no index is made.
pub fn advance_to(net: &Network, store: &mut [u32], to: u32)
    requires { Lawful net.now.table.now net.now.shape × Owners net.now.table.now net.now.shape × NextKept net.now.shape store.old }
    ensures { store.new ≡ advanced net.now.table.now net.now.shape to store.old }
{
    if nothing_due(store, to) {
        put_time(store, to);
        return;
    }
    advance_due(net, store, to);
}

// Event output o arrives.
#[inline(never)]
pub fn arrive(net: &Network, store: &mut [u32], o: usize, birth: u32, values: &[u32])
    requires { (of_source net.now.table.now net.now.shape o ≡ true) × (length values.now ≡ value_count_of net.now.table.now net.now.shape o) × Lawful net.now.table.now net.now.shape × Owners net.now.table.now net.now.shape }
    ensures { store.new ≡ arrived net.now.table.now net.now.shape o birth values.now store.old }
{
    let mut entries = [0u16; SIZE];
    let ix = IndexedNetwork::new(*net, &mut entries);
    arrive_by(&ix, store, o, birth, values);
}

// An event output of a source.
#[tactic(auto, unfolding(rules_calls::specs::Calls::of_source))]
pub fn of_source(net: &Network, o: usize) -> bool
    ensures { result ≡ of_source net.now.table.now net.now.shape o }
{
    o < net.shape.outputs() && flag(net.table, field(net.table, net.output_frame(o), 0)) == SOURCE
}

// How many values an arrival of event output o has.
pub fn value_count(net: &Network, o: usize) -> usize
    ensures { result ≡ value_count_of net.now.table.now net.now.shape o }
{
    rank(
        net.table,
        net.shape.variables_end,
        OF_OUTPUT,
        o,
        net.shape.associations(),
    )
}
