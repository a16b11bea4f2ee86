// One move: which comes next, and making it.
#![tactic(auto)]

ghost use Rattle.std.specs.Prelude.{◌≡◌, ◌+◌, ◌<◌, ◌≤◌, length, leb};
ghost use Rattle.rules_tables.specs.Ids.{inputs};
ghost use Rattle.rules_store.specs.Layout.{need};
ghost use Rattle.rules_store.specs.Word.{current_event, running_of, birth_of};
ghost use Rattle.rules_store.specs.Earliest.{NextKept};
ghost use Rattle.rules_moves.specs.Least.{least as «least_of»};
ghost use Rattle.rules_moves.specs.Record.{put_out};
ghost use Rattle.moves_take.specs.Received.{Received};
ghost use Rattle.rules_moves.specs.Chart.{transition_of, state_of};
ghost use Rattle.rules_tables.specs.Actions.{action_of};
ghost use Rattle.rules_moves.specs.Next.{event_next, chart_next, act_next, next_by, size_by};
ghost use Rattle.moves_next.specs.Made.{Made};
ghost use Rattle.rules_moves.specs.Ready.{Ready};

pub mod act;

use crate::act::{end, step};
use moves_chart::{change, find_transition, go_idle, state_of};
use moves_least::least;
use moves_take::record::written_size;
use moves_take::{Taken, receive};
use numbers::word::wide;
use rules_moves::Next;
use rules_store::{CHARTS, IDLE, Running};
use store_words::network::Network;
use store_words::word::{birth_in, current_event, last_update_in, put_charting};
use table_frames::frame::{field, flag};
use table_index::indexed::IndexedNetwork;

// How far a run is: the place after what was written to the output, and how many untrue steps were made.
#[derive(Clone, Copy, PartialEq, Eq, Debug, Default)]
pub struct Moved {
    pub place: usize,
    pub untrue: u32,
}

// Idle: the least waiting event.
fn next_event(net: &Network, store: &[u32]) -> Next
    requires { need net.now.shape ≤ length store.now }
    ensures { result ≡ event_next (least_of net.now.table.now net.now.shape store.now) }
{
    let Some((i, _)) = least(net, store) else {
        return Next::Nothing;
    };
    Next::Take(i)
}

// Mode 1: the first enabled transition.
fn next_transition(ix: &IndexedNetwork, store: &[u32], live: u32) -> Next
    ensures { result ≡ chart_next (transition_of ix.now.net.table.now ix.now.net.shape store.now (state_of store.now) (current_event store.now) live) }
{
    let event = wide(current_event(store));
    let Some(j) = find_transition(ix, store, state_of(store), event, live) else {
        return Next::Idle;
    };
    Next::Change(j)
}

// Mode 2: a step of the present action, its end, or no action. Action 0 is none: the state is not looked at for it.
fn next_act(ix: &IndexedNetwork, store: &[u32], r: Running) -> Next
    ensures { result ≡ act_next ix.now.net.table.now ix.now.net.shape r (action_of ix.now.net.table.now ix.now.net.shape (state_of store.now) r.action) }
{
    if r.action == 0 {
        return Next::Back;
    }
    let Some(j) = ix.action_of(state_of(store), wide(r.action)) else {
        return Next::Back;
    };
    let f = ix.net.action_frame(j);
    let done = wide(r.step);
    if done < field(ix.net.table, f, 2) {
        return Next::Step(field(ix.net.table, f, 1) + done);
    }
    Next::End(j)
}

// What comes next is decided here alone, by the mode of the running block r.
pub fn next_move(ix: &IndexedNetwork, store: &[u32], r: Running) -> Next
    requires { need ix.now.net.shape ≤ length store.now }
    ensures { (result ≡ next_by ix.now.net.table.now ix.now.net.shape r store.now) × Ready ix.now.net.shape result }
{
    let mode = r.mode;
    match mode {
        IDLE => next_event(&ix.net, store),
        CHARTS => next_transition(ix, store, r.live),
        _ => next_act(ix, store, r),
    }
}

// The bytes that the next move writes.
fn size(net: &Network, store: &[u32], time: u32, n: Next) -> usize
    requires { Ready net.now.shape n }
    ensures { result ≡ size_by net.now.table.now net.now.shape time n store.now }
{
    if let Next::Take(i) = n {
        written_size(net, i)
    } else {
        0
    }
}

// What the next move writes has room in so many bytes. A record has 48 at most, its head and eight values: where there is room for
// these, its size, for which the associations have to be walked, is not asked.
pub fn fits(net: &Network, store: &[u32], time: u32, n: Next, room: usize) -> bool
    requires { Ready net.now.shape n }
    ensures { result ≡ leb (size_by net.now.table.now net.now.shape time n store.now) room }
{
    48 <= room || size(net, store, time, n) <= room
}

// Takes event input i; a sink's record goes to the output at `at`. The answer is the place after what is written.
fn take_event(
    ix: &IndexedNetwork,
    store: &mut [u32],
    time: u32,
    i: usize,
    out: &mut [u8],
    at: usize,
) -> usize
    requires { (i < inputs ix.now.net.shape) × (time < 2147483648) × (at + length (put_out ix.now.net.table.now ix.now.net.shape i (birth_of ix.now.net.shape store.old i) time store.old) ≤ length out.old) × NextKept ix.now.net.shape store.old }
    ensures { Received ix.now.net.table.now ix.now.net.shape i time store.old store.new out.old out.new at result }
{
    let element = field(ix.net.table, ix.net.input_frame(i), 0);
    let e = Taken {
        input: i,
        element,
        sort: flag(ix.net.table, element),
        birth: birth_in(store, ix.net.shape, i),
        last: last_update_in(store, ix.net.shape, i),
    };
    receive(ix, store, e, time, out, at)
}

// Makes the move n that comes next, r being the running block, where a run is so far; what the move writes goes to the output at that place. Only a step changes
// the count of untrue steps, so no other move has to look at it.
pub fn make(
    ix: &IndexedNetwork,
    store: &mut [u32],
    time: u32,
    r: Running,
    n: Next,
    out: &mut [u8],
    so_far: Moved,
) -> Moved
    requires { (r ≡ running_of store.old) × (n ≡ next_by ix.now.net.table.now ix.now.net.shape r store.old) × (time < 2147483648) × (so_far.place + size_by ix.now.net.table.now ix.now.net.shape time n store.old ≤ length out.old) × NextKept ix.now.net.shape store.old × (so_far.untrue < 4294967295) }
    ensures { Made ix.now.net.table.now ix.now.net.shape time n store.old store.new out.old out.new so_far.place result.place so_far.untrue result.untrue }
{
    match n {
        Next::Take(i) => Moved {
            place: take_event(ix, store, time, i, out, so_far.place),
            ..so_far
        },
        Next::Change(j) => {
            change(ix, store, r, j);
            so_far
        }
        Next::Idle => {
            go_idle(store);
            so_far
        }
        Next::Step(j) => Moved {
            untrue: so_far.untrue + step(&ix.net, store, time, r, j),
            ..so_far
        },
        Next::End(j) => {
            end(ix, store, time, r, j);
            so_far
        }
        Next::Back => {
            put_charting(store, r);
            so_far
        }
        Next::Nothing => so_far,
    }
}
