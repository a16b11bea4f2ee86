// Run makes moves until no move exists (1), else the next move's record has no room (3), else its frames have no room in the trace (4), else the budget is used
// (2). A run without a trace is the same loop with the trace left off: one machine, and 4 is never asked.
ghost use Rattle.std.specs.Prelude.{◌≡◌, not, true, ◌+◌, ◌<◌, ◌≤◌, ltb, length};
ghost use Rattle.rules_walks.specs.Pick.{pick};
ghost use Rattle.rules_store.specs.Word.{now_of};
ghost use Rattle.rules_store.specs.Formed.{Formed};
ghost use Rattle.rules_moves.specs.Next.{moves, move_by, size_by};
ghost use Rattle.moves_next.specs.Made.{Made};
ghost use Rattle.moves_tell.specs.Before.{numbers_by};
ghost use Rattle.moves_tell.specs.Telling.{Telling, Numbered};
ghost use Rattle.moves_tell.specs.Taped.{Space};
ghost use Rattle.rules_traces.specs.Traceable.{Traceable};
ghost use Rattle.rules_traces.specs.Entry.{entry_frames};
ghost use Rattle.rules_traces.specs.Trace.{entries_by};
ghost use Rattle.table_index.specs.Index.{Owners};
ghost use Rattle.calls_run.specs.Asked.{number_of, why};
ghost use Rattle.calls_run.specs.RunMade.{asked_by, RanAs};
ghost use Rattle.calls_run.specs.TapedIf.{TapedIf, RanOn};

use moves_next::{Moved, fits, make, next_move};
use moves_tell::act::tell_numbers;
use moves_tell::tape::Tape;
use moves_tell::turn::Turn;
use moves_tell::{fits as fits_trace, tell};
use rules_moves::Next;
use rules_store::Running;
use store_words::network::Network;
use store_words::word::running;
use table_index::index::SIZE;
use table_index::indexed::IndexedNetwork;

// What a run tells: the moves made, the bytes written, why no more were made, the bytes of its trace, and how many of its steps were untrue.
#[derive(Clone, Copy, PartialEq, Eq, Debug, Default)]
pub struct Ran {
    pub moves: u32,
    pub bytes: usize,
    pub stop: u32,
    pub traced: usize,
    pub untrue: u32,
}

// Why a run stops.
#[derive(Clone, Copy, PartialEq, Eq, Debug)]
enum Stop {
    NoMove,
    Budget,
    Room,
    TraceRoom,
}

impl Stop {
    // The number that a caller is told.
    fn number(self) -> u32
        ensures { result ≡ number_of self }
    {
        match self {
            Stop::NoMove => 1,
            Stop::Budget => 2,
            Stop::Room => 3,
            Stop::TraceRoom => 4,
        }
    }
}

// There is no move.
fn still(next: Next) -> bool
    ensures { result ≡ not (moves next) }
{
    matches!(next, Next::Nothing)
}

// Whether the budget of moves is used.
fn spent(n: u32, budget: u32) -> Option<Stop>
    ensures { why result ≡ pick (ltb n budget) 0 2 }
{
    if n < budget { None } else { Some(Stop::Budget) }
}

// After n moves, with `at` bytes of output and the tape written: why the run stops here, if it does.
fn asked(
    turn: Turn,
    n: u32,
    budget: u32,
    at: usize,
    room: usize,
    tape: &Tape,
    tracing: bool,
) -> Option<Stop>
    requires { (at ≤ room) × (tape.now.at ≤ length tape.now.bytes.now) }
    ensures { why result ≡ asked_by tracing turn.entry.next (size_by turn.entry.ix.now.net.table.now turn.entry.ix.now.net.shape turn.entry.time turn.entry.next turn.entry.store.now) at room (length (entry_frames (entries_by turn.entry.ix.now.net.table.now turn.entry.ix.now.net.shape turn.entry.time turn.entry.next turn.entry.store.now))) tape.now.at (length tape.now.bytes.now) n budget }
{
    if still(turn.next) {
        return Some(Stop::NoMove);
    }
    if !fits(&turn.ix.net, turn.store, turn.time, turn.next, room - at) {
        return Some(Stop::Room);
    }
    if tracing && !fits_trace(turn, tape.bytes.len() - tape.at) {
        return Some(Stop::TraceRoom);
    }
    spent(n, budget)
}

// Kinds 9 and 10, where the move is told: the store after it has the numbers.
fn numbers_if(net: &Network, store: &[u32], next: Next, tape: &mut Tape, tracing: bool)
    requires { (tape.old.at ≤ length tape.old.bytes.now) × (tracing ≡ true → Numbered net.now.table.now net.now.shape next store.now × Space (numbers_by net.now.table.now net.now.shape next store.now) tape.old) }
    ensures { TapedIf tracing (numbers_by net.now.table.now net.now.shape next store.now) tape.old tape.new }
{
    if tracing {
        tell_numbers(net, store, next, tape);
    }
}

// The move that comes next is made, and its action and step numbers, the last of its frames, are told: now the store has them.
fn make_told(
    ix: &IndexedNetwork,
    store: &mut [u32],
    time: u32,
    r: Running,
    next: Next,
    out: &mut [u8],
    so_far: Moved,
    tape: &mut Tape,
    tracing: bool,
) -> Moved
    requires { Telling ix.now.net.table.now ix.now.net.shape time r next store.old × (so_far.place + size_by ix.now.net.table.now ix.now.net.shape time next store.old ≤ length out.old) × (tape.old.at ≤ length tape.old.bytes.now) × (tracing ≡ true → Space (numbers_by ix.now.net.table.now ix.now.net.shape next (move_by ix.now.net.table.now ix.now.net.shape time next store.old)) tape.old) × (so_far.untrue < 4294967295) }
    ensures { Made ix.now.net.table.now ix.now.net.shape time next store.old store.new out.old out.new so_far.place result.place so_far.untrue result.untrue
        × TapedIf tracing (numbers_by ix.now.net.table.now ix.now.net.shape next (move_by ix.now.net.table.now ix.now.net.shape time next store.old)) tape.old tape.new }
{
    let moved = make(ix, store, time, r, next, out, so_far);
    numbers_if(&ix.net, store, next, tape, tracing);
    moved
}

// Turns of the loop, until there is a reason to stop. A move is told, but for its numbers, from the store before it.
fn make_moves(
    ix: &IndexedNetwork,
    store: &mut [u32],
    time: u32,
    budget: u32,
    out: &mut [u8],
    tape: &mut Tape,
    tracing: bool,
) -> Ran
    requires { Traceable ix.now.net.table.now ix.now.net.shape × Formed ix.now.net.table.now ix.now.net.shape store.old × (time ≡ now_of store.old) × (time < 2147483648) × (tape.old.at ≡ 0) }
    ensures { RanOn tracing ix.now.net.table.now ix.now.net.shape time budget store.old out.old tape.old result store.new out.new tape.new }
{
    let mut n: u32 = 0;
    let mut so_far = Moved {
        place: 0,
        untrue: 0,
    };
    loop {
        let r = running(store);
        let next = next_move(ix, store, r);
        let turn = Turn {
            ix: &*ix,
            store: &*store,
            time,
            r,
            next,
        };
        if let Some(stop) = asked(turn, n, budget, so_far.place, out.len(), tape, tracing) {
            break Ran {
                moves: n,
                bytes: so_far.place,
                stop: stop.number(),
                traced: tape.at,
                untrue: so_far.untrue,
            };
        }
        if tracing {
            tell(turn, tape);
        }
        so_far = make_told(ix, store, time, r, next, out, so_far, tape, tracing);
        n += 1;
    }
}

// The number of moves is that of the defined machine between entry and exit store, and so are the bytes and the trace. The index of the table is made here,
// once for all moves of the call. Every store that was accepted has its sixteen words: since that is asked here, once, the compiled loop does not ask it again
// for each word that it reads. The flag is not an Option of the trace: `RanAs` says of the bytes that are lent, traced or not, what they are after the run.
pub fn run_moves(
    net: &Network,
    store: &mut [u32],
    time: u32,
    budget: u32,
    out: &mut [u8],
    trace: &mut [u8],
    tracing: bool,
) -> Ran
    requires { Traceable net.now.table.now net.now.shape × Formed net.now.table.now net.now.shape store.old × (time ≡ now_of store.old) × (time < 2147483648) × Owners net.now.table.now net.now.shape }
    ensures { RanAs tracing net.now.table.now net.now.shape time budget store.old out.old trace.old result store.new out.new trace.new }
{
    if store.len() < 16 {
        return Ran {
            stop: 1,
            ..Ran::default()
        };
    }
    let mut entries = [0u16; SIZE];
    let ix = IndexedNetwork::new(*net, &mut entries);
    let mut tape = Tape {
        bytes: trace,
        at: 0,
    };
    make_moves(&ix, store, time, budget, out, &mut tape, tracing)
}
