// How many bytes the frames of kinds 0 to 8 have that the next move will tell. It is asked only where little room is left in the trace, so it may be slow. The
// frames are counted and not told: what tells is called at one place alone, in the loop that makes the moves, and so the compiler can put it there.
ghost use Rattle.std.specs.Prelude.{◌≡◌, ◌++◌, ◌<◌, ◌≤◌, length};
ghost use Rattle.rules_tables.specs.Frame.{frames_of};
ghost use Rattle.rules_tables.specs.Ids.{inputs, variables as «variables_of», transitions as «transitions_of», actions as «actions_of», steps as «steps_of», step_frame};
ghost use Rattle.rules_store.specs.Layout.{need};
ghost use Rattle.rules_moves.specs.Partner.{input_owner};
ghost use Rattle.rules_moves.specs.Chart.{element_of};
ghost use Rattle.rules_moves.specs.Take.{fired_by};
ghost use Rattle.rules_moves.specs.Act.{event_of};
ghost use Rattle.rules_moves.specs.Next.{move_by};
ghost use Rattle.rules_traces.specs.Traceable.{Traceable};
ghost use Rattle.rules_traces.specs.Gather.{gather};
ghost use Rattle.rules_traces.specs.Trace.{finished_at_once, emitted_entry, enabled_entry, first_entries};
ghost use Rattle.moves_tell.specs.Before.{take_entries, take_events, change_entries, step_entries};
ghost use Rattle.moves_tell.specs.Brought.{brought};
ghost use Rattle.moves_tell.specs.Told.{Sized};

use crate::act::result_of;
use crate::take::brought;
use crate::turn::Turn;
use moves_chart::element_of;
use moves_fire::partner::partner_output;
use numbers::word::since;
use rules_moves::Next;
use store_words::network::Network;
use store_words::word::{chart_state, value_of};
use table_frames::frame::{field, flag};
use table_frames::kind::{BASIC, INTERFACE, NONE};
use table_index::indexed::IndexedNetwork;

// The bytes of a frame.
const FRAME: usize = 12;

// What the event brings by input v.
fn brought_size(ix: &IndexedNetwork, store: &[u32], i: usize, v: usize, passed: bool) -> usize
    requires { (v < variables_of ix.now.net.shape) × (need ix.now.net.shape ≤ length store.now) }
    ensures { Sized (brought passed ix.now.net.table.now ix.now.net.shape i store.now v) result × (result ≤ 12) }
{
    match brought(ix, store, i, v, passed) {
        Some(_) => FRAME,
        None => 0,
    }
}

// All that it brings by the inputs of element el. No table has more than 512 variables.
fn all_size(ix: &IndexedNetwork, store: &[u32], i: usize, el: usize, passed: bool) -> usize
    requires { Traceable ix.now.net.table.now ix.now.net.shape × (el ≡ input_owner ix.now.net.table.now ix.now.net.shape i) × (need ix.now.net.shape ≤ length store.now) }
    ensures { Sized (gather (brought passed ix.now.net.table.now ix.now.net.shape i store.now) (variables_of ix.now.net.shape)) result × (result ≤ 6144) }
{
    let mut z = 0;
    for v in ix.variables_of(el) {
        z += brought_size(ix, store, i, v, passed);
    }
    z
}

// What inputs get, and of an interface outputs.
fn values_size(ix: &IndexedNetwork, store: &[u32], i: usize, el: usize) -> usize
    requires { Traceable ix.now.net.table.now ix.now.net.shape × (i < inputs ix.now.net.shape) × (el ≡ input_owner ix.now.net.table.now ix.now.net.shape i) × (need ix.now.net.shape ≤ length store.now) }
    ensures { Sized (take_entries ix.now.net.table.now ix.now.net.shape i store.now) result × (result ≤ 12288) }
{
    let z = all_size(ix, store, i, el, false);
    if flag(ix.net.table, el) != INTERFACE {
        return z;
    }
    z + all_size(ix, store, i, el, true)
}

// The block is finished, at once where it has no chart.
fn finished_size(t: &[u8], el: usize) -> usize
    requires { el < frames_of t.now }
    ensures { Sized (finished_at_once t.now el) result × (result ≤ 12) }
{
    if flag(t, el) == BASIC { 0 } else { FRAME }
}

// An interface's partner event.
fn partner_size(ix: &IndexedNetwork, i: usize, el: usize) -> usize
    requires { (i < inputs ix.now.net.shape) × (el ≡ input_owner ix.now.net.table.now ix.now.net.shape i) }
    ensures { Sized (emitted_entry ix.now.net.table.now ix.now.net.shape (fired_by ix.now.net.table.now ix.now.net.shape i)) result × (result ≤ 12) }
{
    if flag(ix.net.table, el) != INTERFACE {
        return 0;
    }
    match partner_output(ix, i) {
        Some(_) => FRAME,
        None => 0,
    }
}

// The block is started, perhaps finished at once, the event selected, and an interface's partner event emitted.
fn events_size(ix: &IndexedNetwork, i: usize, el: usize) -> usize
    requires { (i < inputs ix.now.net.shape) × (el ≡ input_owner ix.now.net.table.now ix.now.net.shape i) }
    ensures { Sized (take_events ix.now.net.table.now ix.now.net.shape i) result × (result ≤ 48) }
{
    FRAME + finished_size(ix.net.table, el) + FRAME + partner_size(ix, i, el)
}

// Event input i is taken.
fn take_size(ix: &IndexedNetwork, store: &[u32], i: usize) -> usize
    requires { Traceable ix.now.net.table.now ix.now.net.shape × (i < inputs ix.now.net.shape) × (need ix.now.net.shape ≤ length store.now) }
    ensures { Sized (take_entries ix.now.net.table.now ix.now.net.shape i store.now ++ take_events ix.now.net.table.now ix.now.net.shape i) result }
{
    let el = field(ix.net.table, ix.net.input_frame(i), 0);
    values_size(ix, store, i, el) + events_size(ix, i, el)
}

// Transition j is made: the chart state, where it differs, and the transition.
fn transition_size(net: &Network, store: &[u32], j: usize) -> usize
    requires { j < transitions_of net.now.shape }
    ensures { Sized (change_entries net.now.table.now net.now.shape j store.now ++ enabled_entry (element_of store.now) j) result }
{
    let to = field(net.table, net.transition_frame(j), 1) as u32;
    if chart_state(store, element_of(store)) == to {
        FRAME
    } else {
        FRAME + FRAME
    }
}

// Step j is made.
fn step_size(net: &Network, store: &[u32], j: usize, age: u32) -> usize
    requires { (j < steps_of net.now.shape) × (age < 2147483648) }
    ensures { Sized (step_entries net.now.table.now net.now.shape (step_frame net.now.shape j) age store.now) result }
{
    let f = net.step_frame(j);
    let v = field(net.table, f, 0);
    let x = result_of(net.table, store, net.shape, f, age);
    if value_of(store, net.shape, v) == x {
        0
    } else {
        FRAME
    }
}

// The event of action j, if any, is emitted.
fn event_size(net: &Network, j: usize) -> usize
    requires { j < actions_of net.now.shape }
    ensures { Sized (emitted_entry net.now.table.now net.now.shape (event_of net.now.table.now net.now.shape j)) result }
{
    if field(net.table, net.action_frame(j), 3) == NONE {
        0
    } else {
        FRAME
    }
}

// The move that comes next.
pub fn first_size(turn: Turn) -> usize
    ensures { Sized (first_entries turn.entry.ix.now.net.table.now turn.entry.ix.now.net.shape turn.entry.next turn.entry.store.now (move_by turn.entry.ix.now.net.table.now turn.entry.ix.now.net.shape turn.entry.time turn.entry.next turn.entry.store.now)) result }
{
    let (ix, store) = (turn.ix, turn.store);
    match turn.next {
        Next::Take(i) => take_size(ix, store, i),
        Next::Change(j) => transition_size(&ix.net, store, j),
        Next::Idle => FRAME,
        Next::Step(j) => step_size(&ix.net, store, j, since(turn.time, turn.r.birth)),
        Next::End(j) => event_size(&ix.net, j),
        Next::Back => 0,
        Next::Nothing => 0,
    }
}
