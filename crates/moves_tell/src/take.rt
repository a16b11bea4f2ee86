// Taking an event: what its inputs get, and what an interface's outputs get from them.
ghost use Rattle.std.specs.Prelude.{◌≡◌, ◌++◌, ◌<◌, ◌≤◌, not, eqb, length, IfSome};
ghost use Rattle.rules_tables.specs.Frame.{frames_of};
ghost use Rattle.rules_tables.specs.Ids.{inputs, variables as «variables_of»};
ghost use Rattle.rules_moves.specs.Partner.{input_owner, partner_output};
ghost use Rattle.rules_traces.specs.Traceable.{Traceable};
ghost use Rattle.rules_traces.specs.Gather.{gather};
ghost use Rattle.rules_traces.specs.Trace.{emitted_entry, finished_at_once};
ghost use Rattle.moves_tell.specs.Before.{take_entries, take_events};
ghost use Rattle.moves_tell.specs.Brought.{brought, brought_kind, getter, told_of};
ghost use Rattle.rules_moves.specs.Associated.{associated};
ghost use Rattle.rules_store.specs.Word.{value, buffer};
ghost use Rattle.rules_walks.specs.Pick.{both};
ghost use Rattle.rules_store.specs.Layout.{need};
ghost use Rattle.table_parts.specs.Found.{found_of};
ghost use Rattle.moves_tell.specs.Told.{Fitting};
ghost use Rattle.moves_tell.specs.Taped.{Taped, Space};

use crate::entry::{happened, tell_emitted};
use crate::tape::Tape;
use moves_fire::partner::{partner_output, partner_variable};
use rules_traces::{Entry, FINISHED_KIND, INPUT_KIND, OUTPUT_KIND, SELECTED_KIND, STARTED_KIND};
use store_words::word::{buffer_in, value_in};
use table_frames::frame::{field, flag};
use table_frames::kind::{BASIC, INTERFACE, OF_INPUT};
use table_index::indexed::IndexedNetwork;

// Variable v is associated with event input i, whose associations, eight at most, are gone through.
fn associates(ix: &IndexedNetwork, i: usize, v: usize) -> bool
    ensures { result ≡ associated ix.now.net.table.now ix.now.net.shape i v }
{
    for j in ix.associations_of(OF_INPUT, i) {
        if field(ix.net.table, ix.net.association_frame(j), 1) == v {
            return true;
        }
    }
    false
}

// Variable u, which gets what input v gets from its buffer, will differ from before. Most events bring what was there: so the values are compared first.
pub fn differs(ix: &IndexedNetwork, store: &[u32], i: usize, v: usize, u: usize) -> bool
    requires { (v < variables_of ix.now.net.shape) × (u < variables_of ix.now.net.shape) × (need ix.now.net.shape ≤ length store.now) }
    ensures { result ≡ both (associated ix.now.net.table.now ix.now.net.shape i v) (not (eqb (value ix.now.net.shape store.now u) (buffer ix.now.net.shape store.now v))) }
{
    value_in(store, ix.net.shape, u) != buffer_in(store, ix.net.shape, v) && associates(ix, i, v)
}

// The variable that gets what is in the buffer of input v: v itself, or the output that is its partner, to which it is passed on.
#[tactic(auto, unfolding(crate::specs::Brought::getter))]
fn getter(ix: &IndexedNetwork, v: usize, passed: bool) -> Option<usize>
    requires { v < variables_of ix.now.net.shape }
    ensures { result ≡ found_of (getter passed ix.now.net.table.now ix.now.net.shape v) }
{
    if passed {
        partner_variable(ix, v)
    } else {
        Some(v)
    }
}

// The kind of its frame.
#[tactic(auto, unfolding(crate::specs::Brought::brought_kind))]
fn brought_kind(passed: bool) -> usize
    ensures { (result ≡ brought_kind passed) × (result < 256) }
{
    if passed { OUTPUT_KIND } else { INPUT_KIND }
}

// What event input i brings by input v, if v is associated with it: its frame, where the value differs from before.
pub fn brought(
    ix: &IndexedNetwork,
    store: &[u32],
    i: usize,
    v: usize,
    passed: bool,
) -> Option<Entry>
    requires { (v < variables_of ix.now.net.shape) × (need ix.now.net.shape ≤ length store.now) }
    ensures { (told_of result ≡ brought passed ix.now.net.table.now ix.now.net.shape i store.now v) × IfSome result (λ e. Fitting e) }
{
    let u = getter(ix, v, passed)?;
    if !differs(ix, store, i, v, u) {
        return None;
    }
    Some(Entry {
        kind: brought_kind(passed),
        block: field(ix.net.table, ix.net.variable_frame(u), 0),
        id: u,
        value: buffer_in(store, ix.net.shape, v),
    })
}

// All that it brings by the inputs of element el, by id: the index leads from one to the next. The k-th input and the k-th output of an interface belong
// together, so its inputs by id lead to the outputs in their order.
fn tell_brought(
    ix: &IndexedNetwork,
    store: &[u32],
    i: usize,
    el: usize,
    passed: bool,
    tape: &mut Tape,
)
    requires { Traceable ix.now.net.table.now ix.now.net.shape × (el ≡ input_owner ix.now.net.table.now ix.now.net.shape i) × Space (gather (brought passed ix.now.net.table.now ix.now.net.shape i store.now) (variables_of ix.now.net.shape)) tape.old × (need ix.now.net.shape ≤ length store.now) }
    ensures { Taped (gather (brought passed ix.now.net.table.now ix.now.net.shape i store.now) (variables_of ix.now.net.shape)) tape.old tape.new }
{
    for v in ix.variables_of(el) {
        if let Some(e) = brought(ix, store, i, v, passed) {
            tape.put(e);
        }
    }
}

// What inputs get, and of an interface outputs.
fn tell_values(ix: &IndexedNetwork, store: &[u32], i: usize, el: usize, tape: &mut Tape)
    requires { Traceable ix.now.net.table.now ix.now.net.shape × (i < inputs ix.now.net.shape) × (el ≡ input_owner ix.now.net.table.now ix.now.net.shape i) × Space (take_entries ix.now.net.table.now ix.now.net.shape i store.now) tape.old × (need ix.now.net.shape ≤ length store.now) }
    ensures { Taped (take_entries ix.now.net.table.now ix.now.net.shape i store.now) tape.old tape.new }
{
    tell_brought(ix, store, i, el, false, tape);
    if flag(ix.net.table, el) == INTERFACE {
        tell_brought(ix, store, i, el, true, tape);
    }
}

// An interface's partner event is emitted.
fn tell_partner(ix: &IndexedNetwork, i: usize, tape: &mut Tape)
    requires { (i < inputs ix.now.net.shape) × Space (emitted_entry ix.now.net.table.now ix.now.net.shape (partner_output ix.now.net.table.now ix.now.net.shape i)) tape.old }
    ensures { Taped (emitted_entry ix.now.net.table.now ix.now.net.shape (partner_output ix.now.net.table.now ix.now.net.shape i)) tape.old tape.new }
{
    if let Some(o) = partner_output(ix, i) {
        tell_emitted(&ix.net, o, tape);
    }
}

// The block is finished, at once where it has no chart.
fn tell_finished(t: &[u8], el: usize, tape: &mut Tape)
    requires { (el < frames_of t.now) × (el < 65536) × Space (finished_at_once t.now el) tape.old }
    ensures { Taped (finished_at_once t.now el) tape.old tape.new }
{
    if flag(t, el) != BASIC {
        tape.put(happened(FINISHED_KIND, el, 0));
    }
}

// The block is started, perhaps finished at once, the event selected, and an interface's partner event emitted.
fn tell_events(ix: &IndexedNetwork, i: usize, el: usize, tape: &mut Tape)
    requires { (i < inputs ix.now.net.shape) × (el ≡ input_owner ix.now.net.table.now ix.now.net.shape i) × Space (take_events ix.now.net.table.now ix.now.net.shape i) tape.old }
    ensures { Taped (take_events ix.now.net.table.now ix.now.net.shape i) tape.old tape.new }
{
    tape.put(happened(STARTED_KIND, el, 0));
    tell_finished(ix.net.table, el, tape);
    tape.put(happened(SELECTED_KIND, el, i));
    if flag(ix.net.table, el) == INTERFACE {
        tell_partner(ix, i, tape);
    }
}

// Event input i is taken.
pub fn tell_take(ix: &IndexedNetwork, store: &[u32], i: usize, tape: &mut Tape)
    requires { Traceable ix.now.net.table.now ix.now.net.shape × (i < inputs ix.now.net.shape) × Space (take_entries ix.now.net.table.now ix.now.net.shape i store.now ++ take_events ix.now.net.table.now ix.now.net.shape i) tape.old × (need ix.now.net.shape ≤ length store.now) }
    ensures { Taped (take_entries ix.now.net.table.now ix.now.net.shape i store.now ++ take_events ix.now.net.table.now ix.now.net.shape i) tape.old tape.new }
{
    let el = field(ix.net.table, ix.net.input_frame(i), 0);
    tell_values(ix, store, i, el, tape);
    tell_events(ix, i, el, tape);
}
