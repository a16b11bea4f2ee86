// Telling a move: the frames of the trace, from the store before the move.
#![tactic(auto)]

ghost use Rattle.std.specs.Prelude.{◌≡◌, ◌<◌, eqb, leb, length};
ghost use Rattle.rules_walks.specs.Choose.{choose};
ghost use Rattle.rules_tables.specs.Frame.{field_at};
ghost use Rattle.rules_tables.specs.Ids.{transitions as «transitions_of», actions as «actions_of», transition_frame, action_frame};
ghost use Rattle.rules_tables.specs.Actions.{action_number};
ghost use Rattle.rules_moves.specs.Next.{move_by};
ghost use Rattle.rules_traces.specs.Trace.{first_entries, entries_by};
ghost use Rattle.moves_tell.specs.Taped.{Taped, Space};
ghost use Rattle.rules_traces.specs.Entry.{entry_frames};
ghost use Rattle.moves_tell.specs.Before.{numbers_by};

pub mod act;
pub mod entry;
pub mod sizes;
pub mod take;
pub mod tape;
pub mod turn;

use crate::act::{tell_change, tell_end, tell_idle, tell_step};
use crate::sizes::first_size;
use crate::take::tell_take;
use crate::tape::Tape;
use crate::turn::Turn;
use moves_chart::action_number;
use numbers::word::since;
use rules_moves::Next;
use store_words::network::Network;
use table_frames::frame::field;
use table_index::indexed::IndexedNetwork;

// Tells the frames of kinds 0 to 8 of the move that comes next. The action and step numbers, kinds 9 and 10, come last: they are told after the move, when the
// store has them.
pub fn tell(turn: Turn, tape: &mut Tape)
    requires { Space (first_entries turn.ix.now.net.table.now turn.ix.now.net.shape turn.next turn.store.now (move_by turn.ix.now.net.table.now turn.ix.now.net.shape turn.time turn.next turn.store.now)) tape.old }
    ensures { Taped (first_entries turn.entry.ix.now.net.table.now turn.entry.ix.now.net.shape turn.entry.next turn.entry.store.now (move_by turn.entry.ix.now.net.table.now turn.entry.ix.now.net.shape turn.entry.time turn.entry.next turn.entry.store.now)) tape.old tape.new }
{
    let (ix, store) = (turn.ix, turn.store);
    match turn.next {
        Next::Take(i) => tell_take(ix, store, i, tape),
        Next::Change(j) => tell_change(&ix.net, store, j, tape),
        Next::Idle => tell_idle(store, tape),
        Next::Step(j) => tell_step(&ix.net, store, j, since(turn.time, turn.r.birth), tape),
        Next::End(j) => tell_end(&ix.net, j, tape),
        Next::Back => (),
        Next::Nothing => (),
    }
}

// The bytes of the action number after transition j: none where the state that it leads to has no action.
fn change_size(ix: &IndexedNetwork, j: usize) -> usize
    requires { j < transitions_of ix.now.net.shape }
    ensures { result ≡ choose (eqb 0 (action_number ix.now.net.table.now ix.now.net.shape (field_at ix.now.net.table.now (transition_frame ix.now.net.shape j) 1) 1)) 0 12 }
{
    let to = field(ix.net.table, ix.net.transition_frame(j), 1);
    if 0 == action_number(ix, to, 1) {
        return 0;
    }
    12
}

// The bytes of the action number after action j, and of the step number where the action has steps.
fn end_size(net: &Network, j: usize) -> usize
    requires { j < actions_of net.now.shape }
    ensures { result ≡ choose (eqb (field_at net.now.table.now (action_frame net.now.shape j) 2) 0) 12 24 }
{
    if field(net.table, net.action_frame(j), 2) == 0 {
        return 12;
    }
    24
}

// How many bytes the action and step numbers have that the move will change.
fn numbers_size(turn: Turn) -> usize
    ensures { result ≡ length (entry_frames (numbers_by turn.entry.ix.now.net.table.now turn.entry.ix.now.net.shape turn.entry.next (move_by turn.entry.ix.now.net.table.now turn.entry.ix.now.net.shape turn.entry.time turn.entry.next turn.entry.store.now))) }
{
    match turn.next {
        Next::Take(_) => 0,
        Next::Change(j) => change_size(turn.ix, j),
        Next::Idle => 0,
        Next::Step(_) => 12,
        Next::End(j) => end_size(&turn.ix.net, j),
        Next::Back => 0,
        Next::Nothing => 0,
    }
}

// The most bytes that the frames of a move have: twenty frames, of an interface with eight values.
pub const MOST: usize = 240;

// How many bytes the frames of the next move have: those of kinds 0 to 8, and its numbers.
fn size(turn: Turn) -> usize
    ensures { result ≡ length (entry_frames (entries_by turn.entry.ix.now.net.table.now turn.entry.ix.now.net.shape turn.entry.time turn.entry.next turn.entry.store.now)) }
{
    first_size(turn) + numbers_size(turn)
}

// The frames of the next move have room in so many bytes. Where there is room for the most that a move has, how many it has is not asked.
pub fn fits(turn: Turn, room: usize) -> bool
    ensures { result ≡ leb (length (entry_frames (entries_by turn.entry.ix.now.net.table.now turn.entry.ix.now.net.shape turn.entry.time turn.entry.next turn.entry.store.now))) room }
{
    MOST <= room || size(turn) <= room
}
