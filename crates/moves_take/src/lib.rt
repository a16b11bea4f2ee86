// Taking an event.
#![tactic(auto)]

ghost use Rattle.std.specs.Prelude.{◌≡◌, true, ◌+◌, ◌<◌, ◌≤◌, length};
ghost use Rattle.numbers.specs.Bounded.{Bounded};
ghost use Rattle.rules_tables.specs.Kind.{interface, of_input};
ghost use Rattle.rules_tables.specs.Frame.{flag_at};
ghost use Rattle.rules_tables.specs.Ids.{elements, inputs, variables, associations as «associations_of»};
ghost use Rattle.store_words.specs.Small.{Small};
ghost use Rattle.rules_store.specs.Word.{value, put_value, buffer};
ghost use Rattle.rules_store.specs.Earliest.{NextKept};
ghost use Rattle.rules_moves.specs.Partner.{input_owner, partner_output, partner_variable};
ghost use Rattle.rules_moves.specs.Carry.{voice, speaks};
ghost use Rattle.rules_moves.specs.Take.{sample as «sample_at», samples, pass_to, pass as «pass_at», passes, fire_found, dt_of, started, start_stop, wake as «wake_of»};
ghost use Rattle.rules_moves.specs.Record.{put_out};
ghost use Rattle.moves_take.specs.Received.{Event, Received};

pub mod record;

use crate::record::write_record;
use moves_fire::fire_by;
use moves_fire::partner::{partner_output, partner_variable};
use numbers::word::ticks;
use rules_moves::Voice;
use rules_store::Running;
use rules_tables::Shape;
use store_words::due::put_due;
use store_words::network::Network;
use store_words::word::{
    buffer_of, due_flag, put_input_in, put_owner, put_running, put_value, value_of,
};
use table_frames::frame::field;
use table_frames::kind::{BASIC, DELAY, INTERFACE, OF_INPUT, SINK};
use table_index::indexed::IndexedNetwork;
use table_parts::{ANY, nth, rank};

// Input variable v gets value from buffer; the answer is that value.
pub fn sample(store: &mut [u32], shape: Shape, v: usize) -> u32
    requires { Small shape × (v < 65536) }
    ensures { (result ≡ buffer shape store.old v) × (store.new ≡ put_value shape v result store.old) }
{
    let x = buffer_of(store, shape, v);
    put_value(store, shape, v, x);
    x
}

// Associated inputs get value from buffer.
fn sample_all(ix: &IndexedNetwork, store: &mut [u32], i: usize)
    ensures { store.new ≡ samples ix.now.net.table.now ix.now.net.shape i store.old }
{
    for j in ix.associations_of(OF_INPUT, i) {
        let v = field(ix.net.table, ix.net.association_frame(j), 1);
        sample(store, ix.net.shape, v);
    }
}

// x, the value of input variable v, goes to its partner, if it has one.
fn pass(ix: &IndexedNetwork, store: &mut [u32], v: usize, x: u32)
    requires { (v < variables ix.now.net.shape) × (x ≡ value ix.now.net.shape store.old v) }
    ensures { store.new ≡ pass_to ix.now.net.shape (partner_variable ix.now.net.table.now ix.now.net.shape v) v store.old }
{
    let Some(u) = partner_variable(ix, v) else {
        return;
    };
    put_value(store, ix.net.shape, u, x);
}

// Association j of event input i: its input gets value from buffer and passes it to its partner.
fn pass_on(ix: &IndexedNetwork, store: &mut [u32], i: usize, j: usize)
    requires { (j < associations_of ix.now.net.shape) × (speaks ix.now.net.table.now ix.now.net.shape (voice of_input i) j ≡ true) }
    ensures { store.new ≡ pass_at ix.now.net.table.now ix.now.net.shape i j (sample_at ix.now.net.table.now ix.now.net.shape i j store.old) }
{
    let v = field(ix.net.table, ix.net.association_frame(j), 1);
    let x = sample(store, ix.net.shape, v);
    pass(ix, store, v, x);
}

// Associated inputs get value from buffer and pass it to their partners, all in one walk.
fn pass_all(ix: &IndexedNetwork, store: &mut [u32], i: usize)
    ensures { store.new ≡ passes ix.now.net.table.now ix.now.net.shape i (samples ix.now.net.table.now ix.now.net.shape i store.old) }
{
    for j in ix.associations_of(OF_INPUT, i) {
        pass_on(ix, store, i, j);
    }
}

// Interface: values to the partners first, then the partner event is fired with the same birth. It speaks by event input i itself, so
// it carries the variables that were passed to.
fn relay(ix: &IndexedNetwork, store: &mut [u32], i: usize, birth: u32, time: u32)
    requires { (i < inputs ix.now.net.shape) × (flag_at ix.now.net.table.now (input_owner ix.now.net.table.now ix.now.net.shape i) ≡ interface) }
    ensures { store.new ≡ fire_found ix.now.net.table.now ix.now.net.shape (partner_output ix.now.net.table.now ix.now.net.shape i) birth time (passes ix.now.net.table.now ix.now.net.shape i (samples ix.now.net.table.now ix.now.net.shape i store.old)) }
{
    pass_all(ix, store, i);
    let Some(o) = partner_output(ix, i) else {
        return;
    };
    let w = Voice {
        flag: OF_INPUT,
        event: i,
    };
    fire_by(ix, store, o, w, birth, time);
}

// DT: the delay's one variable, a negative one counts as 0.
fn dt_of(net: &Network, store: &[u32], el: usize) -> u32
    ensures { Bounded 2147483648 (dt_of net.now.table.now net.now.shape el store.now) result }
{
    let Some(v) = nth(
        net.table,
        net.shape.outputs_end,
        net.shape.variables(),
        ANY,
        el,
        0,
    ) else {
        return 0;
    };
    ticks(value_of(store, net.shape, v))
}

// A START sets due to now + DT. One that finds the delay due comes before the output of the first, and leaves it.
fn start(net: &Network, store: &mut [u32], el: usize, time: u32)
    requires { (el < elements net.now.shape) × (time < 2147483648) × NextKept net.now.shape store.old }
    ensures { store.new ≡ started net.now.table.now net.now.shape el time store.old }
{
    if due_flag(store, el) == 0 {
        let dt = dt_of(net, store, el);
        put_due(store, net.shape, el, 1, time + dt);
    }
}

// Delay: START, the first event input, or STOP, which clears it.
fn start_stop(net: &Network, store: &mut [u32], el: usize, i: usize, time: u32)
    requires { (i < inputs net.now.shape) × (el < elements net.now.shape) × (time < 2147483648) × NextKept net.now.shape store.old }
    ensures { store.new ≡ start_stop net.now.table.now net.now.shape el i time store.old }
{
    if rank(net.table, net.shape.elements_end, ANY, el, i) == 0 {
        start(net, store, el, time);
        return;
    }
    put_due(store, net.shape, el, 0, 0);
}

// Basic: mode 1, live.
fn wake(store: &mut [u32], el: usize, i: usize, birth: u32)
    requires { (el < 65536) × (i < 65536) }
    ensures { store.new ≡ wake_of el i birth store.old }
{
    put_owner(store, (el + 1) as u32, (i + 1) as u32);
    put_running(store, Running::awake(birth));
}

// An event that is taken: the event input at which it waits, its element with the element's sort, its birth and its last update.
#[derive(Clone, Copy, PartialEq, Eq, Debug)]
pub struct Taken {
    pub input: usize,
    pub element: usize,
    pub sort: usize,
    pub birth: u32,
    pub last: u32,
}

// The event e stops waiting, its associated inputs get value from buffer, and it does its work at its element, by the element's sort.
// What an event does is decided here alone. A sink's record goes to the output at `at`; the answer is the place after what is written.
pub fn receive(
    ix: &IndexedNetwork,
    store: &mut [u32],
    e: Taken,
    time: u32,
    out: &mut [u8],
    at: usize,
) -> usize
    requires { (e.input < inputs ix.now.net.shape) × Event ix.now.net.table.now ix.now.net.shape store.old e.input e.sort e.element e.birth e.last × (time < 2147483648) × (at + length (put_out ix.now.net.table.now ix.now.net.shape e.input e.birth time store.old) ≤ length out.old) × NextKept ix.now.net.shape store.old }
    ensures { Received ix.now.net.table.now ix.now.net.shape e.input time store.old store.new out.old out.new at result }
{
    let i = e.input;
    let sort = e.sort;
    put_input_in(store, ix.net.shape, i, 0, 0, 0);
    match sort {
        BASIC => {
            sample_all(ix, store, i);
            wake(store, e.element, i, e.birth);
            at
        }
        INTERFACE => {
            relay(ix, store, i, e.birth, time);
            at
        }
        DELAY => {
            sample_all(ix, store, i);
            start_stop(&ix.net, store, e.element, i, time);
            at
        }
        SINK => write_record(ix, store, e, time, out, at),
        _ => {
            sample_all(ix, store, i);
            at
        }
    }
}
