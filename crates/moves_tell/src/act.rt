// Moves 2, 4 and 5, and what any move has made of the running block's numbers.
ghost use Rattle.std.specs.Prelude.{◌≡◌, ◌++◌, ◌<◌};
ghost use Rattle.rules_tables.specs.Frame.{frames_of};
ghost use Rattle.store_words.specs.Small.{Small};
ghost use Rattle.rules_tables.specs.Ids.{elements, transitions as «transitions_of», actions as «actions_of», steps as «steps_of», variables as «variables_of», step_frame};
ghost use Rattle.rules_moves.specs.Chart.{element_of};
ghost use Rattle.rules_moves.specs.Act.{event_of};
ghost use Rattle.rules_traces.specs.Trace.{enabled_entry, finished_entry, emitted_entry};
ghost use Rattle.moves_tell.specs.Before.{change_entries, result_kind, result_of, result_entry, step_entries, end_numbers, numbers_by};
ghost use Rattle.rules_store.specs.Word.{running_of};
ghost use Rattle.rules_traces.specs.Kinds.{action_kind, step_kind};
ghost use Rattle.rules_traces.specs.Entry.{entry};
ghost use Rattle.moves_tell.specs.Telling.{Numbered};
ghost use Rattle.moves_tell.specs.Taped.{Taped, Space};

use crate::entry::{happened, tell_emitted};
use crate::tape::Tape;
use moves_chart::element_of;
use numbers::operation::operate_words;
use rules_moves::Next;
use rules_tables::Shape;
use rules_traces::{
    ACTION_KIND, CHART_KIND, ENABLED_KIND, Entry, FINISHED_KIND, INTERNAL_KIND, OUTPUT_KIND,
    STEP_KIND,
};
use store_words::network::Network;
use store_words::word::{chart_state, running, value_of};
use table_frames::frame::{field, flag};
use table_frames::kind::{INTERNAL, NONE};

// Transition j is made.
pub fn tell_change(net: &Network, store: &[u32], j: usize, tape: &mut Tape)
    requires { (j < transitions_of net.now.shape) × (element_of store.now < elements net.now.shape) × Space (change_entries net.now.table.now net.now.shape j store.now ++ enabled_entry (element_of store.now) j) tape.old }
    ensures { Taped (change_entries net.now.table.now net.now.shape j store.now ++ enabled_entry (element_of store.now) j) tape.old tape.new }
{
    let el = element_of(store);
    let e = Entry {
        kind: CHART_KIND,
        block: el,
        id: 0,
        value: field(net.table, net.transition_frame(j), 1) as u32,
    };
    tape.put_differing(chart_state(store, el), e);
    tape.put(happened(ENABLED_KIND, el, j));
}

// The running block ends.
pub fn tell_idle(store: &[u32], tape: &mut Tape)
    requires { (element_of store.now < 65536) × Space (finished_entry (element_of store.now)) tape.old }
    ensures { Taped (finished_entry (element_of store.now)) tape.old tape.new }
{
    tape.put(happened(FINISHED_KIND, element_of(store), 0));
}

// The kind of a step's result: it is no input.
fn result_kind(role: usize) -> usize
    ensures { (result ≡ result_kind role) × (result < 256) }
{
    if role == INTERNAL {
        INTERNAL_KIND
    } else {
        OUTPUT_KIND
    }
}

// What the step at frame f gives.
pub fn result_of(t: &[u8], store: &[u32], shape: Shape, f: usize, age: u32) -> u32
    requires { Small shape × (f < frames_of t.now) × (age < 2147483648) }
    ensures { result ≡ result_of t.now shape f age store.now }
{
    let b = value_of(store, shape, field(t, f, 1));
    let c = value_of(store, shape, field(t, f, 2));
    operate_words(flag(t, f), b, c, age)
}

// Step j is made.
pub fn tell_step(net: &Network, store: &[u32], j: usize, age: u32, tape: &mut Tape)
    requires { (j < steps_of net.now.shape) × (age < 2147483648) × Space (step_entries net.now.table.now net.now.shape (step_frame net.now.shape j) age store.now) tape.old }
    ensures { Taped (step_entries net.now.table.now net.now.shape (step_frame net.now.shape j) age store.now) tape.old tape.new }
{
    let f = net.step_frame(j);
    let v = field(net.table, f, 0);
    let x = result_of(net.table, store, net.shape, f, age);
    tell_result(net, store, v, x, tape);
}

// Variable v of a basic element gets x.
fn tell_result(net: &Network, store: &[u32], v: usize, x: u32, tape: &mut Tape)
    requires { (v < variables_of net.now.shape) × Space (result_entry net.now.table.now net.now.shape v x store.now) tape.old }
    ensures { Taped (result_entry net.now.table.now net.now.shape v x store.now) tape.old tape.new }
{
    let f = net.variable_frame(v);
    let e = Entry {
        kind: result_kind(flag(net.table, f)),
        block: field(net.table, f, 0),
        id: v,
        value: x,
    };
    tape.put_differing(value_of(store, net.shape, v), e);
}

// The event of action j, if any, is emitted.
pub fn tell_end(net: &Network, j: usize, tape: &mut Tape)
    requires { (j < actions_of net.now.shape) × Space (emitted_entry net.now.table.now net.now.shape (event_of net.now.table.now net.now.shape j)) tape.old }
    ensures { Taped (emitted_entry net.now.table.now net.now.shape (event_of net.now.table.now net.now.shape j)) tape.old tape.new }
{
    let o = field(net.table, net.action_frame(j), 3);
    if o != NONE {
        tell_emitted(net, o, tape);
    }
}

// The action number of the running element.
fn action_entry(store: &[u32]) -> Entry
    ensures { result ≡ entry action_kind (element_of store.now) 0 (running_of store.now).action }
{
    let r = running(store);
    Entry {
        kind: ACTION_KIND,
        block: element_of(store),
        id: 0,
        value: r.action,
    }
}

// The step number of the running element.
fn step_entry(store: &[u32]) -> Entry
    ensures { result ≡ entry step_kind (element_of store.now) 0 (running_of store.now).step }
{
    let r = running(store);
    Entry {
        kind: STEP_KIND,
        block: element_of(store),
        id: 0,
        value: r.step,
    }
}

// Action j has ended: another, or 0, at step 0.
fn tell_ended(net: &Network, store: &[u32], j: usize, tape: &mut Tape)
    requires { (j < actions_of net.now.shape) × (element_of store.now < 65536) × Space (end_numbers net.now.table.now net.now.shape j store.now) tape.old }
    ensures { Taped (end_numbers net.now.table.now net.now.shape j store.now) tape.old tape.new }
{
    tape.put(action_entry(store));
    let steps = field(net.table, net.action_frame(j), 2);
    let e = Entry {
        kind: STEP_KIND,
        block: element_of(store),
        id: 0,
        value: 0,
    };
    tape.put_differing(steps as u32, e);
}

// The action and step numbers that move n has changed, from the store after it.
pub fn tell_numbers(net: &Network, store: &[u32], n: Next, tape: &mut Tape)
    requires { Numbered net.now.table.now net.now.shape n store.now × Space (numbers_by net.now.table.now net.now.shape n store.now) tape.old }
    ensures { Taped (numbers_by net.now.table.now net.now.shape n store.now) tape.old tape.new }
{
    match n {
        Next::Take(_) => (),
        Next::Change(_) => tape.put_differing(0, action_entry(store)),
        Next::Idle => (),
        Next::Step(_) => tape.put(step_entry(store)),
        Next::End(j) => tell_ended(net, store, j, tape),
        Next::Back => (),
        Next::Nothing => (),
    }
}
