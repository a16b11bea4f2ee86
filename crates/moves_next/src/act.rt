// Moves 4 and 5: a step, and the end of an action.
ghost use Rattle.std.specs.Prelude.{◌≡◌, ◌-◌, ◌<◌};
ghost use Rattle.rules_tables.specs.Frame.{frames_of};
ghost use Rattle.rules_store.specs.Word.{running_of};
ghost use Rattle.store_words.specs.Small.{Small};
ghost use Rattle.rules_tables.specs.Ids.{actions as «actions_of», steps as «steps_of», step_frame};
ghost use Rattle.rules_walks.specs.First.{one};
ghost use Rattle.rules_moves.specs.Take.{fire_found};
ghost use Rattle.rules_tables.specs.Actions.{action_of};
ghost use Rattle.rules_moves.specs.Chart.{state_of};
ghost use Rattle.rules_walks.specs.Pick.{pick};
ghost use Rattle.rules_moves.specs.Act.{step_outcome, untrue_step, count_untrue, one_step, step_move, event_of, end_move};

use moves_chart::{number_after, state_of};
use moves_fire::fire_by;
use numbers::operation::outcome_words;
use numbers::word::{since, to_word};
use rules_moves::Voice;
use rules_numbers::Outcome;
use rules_store::Running;
use rules_tables::Shape;
use store_words::network::Network;
use store_words::word::{
    counted, put_entered, put_stepped, put_untrue, put_value, untrue_count, value_of,
};
use table_frames::frame::{field, flag};
use table_frames::kind::{NONE, OF_OUTPUT};
use table_index::indexed::IndexedNetwork;

// What the operation of the step at frame f tells.
fn step_outcome(t: &[u8], store: &[u32], shape: Shape, f: usize, age: u32) -> Outcome
    requires { Small shape × (f < frames_of t.now) × (age < 2147483648) }
    ensures { result ≡ step_outcome t.now shape f age store.now }
{
    let b = value_of(store, shape, field(t, f, 1));
    let c = value_of(store, shape, field(t, f, 2));
    outcome_words(flag(t, f), b, c, age)
}

// How many untrue steps a step is, by whether its result is the true one.
fn untrue_of(is_true: bool) -> u32
    ensures { result ≡ pick is_true 0 1 }
{
    if is_true { 0 } else { 1 }
}

// So many untrue steps, 1 or 0, are counted. Most steps are none: then the word is not looked at.
fn count_untrue(store: &mut [u32], u: u32)
    ensures { store.new ≡ count_untrue u store.old }
{
    if u == 0 {
        return;
    }
    let n = counted(u, untrue_count(store));
    put_untrue(store, n);
}

// The step at frame f. The answer is 1 where its result is not the true one, else 0.
fn one_step(t: &[u8], store: &mut [u32], shape: Shape, f: usize, age: u32) -> u32
    requires { Small shape × (f < frames_of t.now) × (age < 2147483648) }
    ensures { (store.new ≡ one_step t.now shape f age store.old) × (result ≡ untrue_step t.now shape f age store.old) }
{
    let told = step_outcome(t, store, shape, f, age);
    put_value(store, shape, field(t, f, 0), to_word(told.result));
    let u = untrue_of(told.is_true);
    count_untrue(store, u);
    u
}

// Step j is made. The answer is how many untrue steps that is.
pub fn step(net: &Network, store: &mut [u32], time: u32, r: Running, j: usize) -> u32
    requires { (j < steps_of net.now.shape) × (r.step < 4294967295) × (time < 2147483648) × (r ≡ running_of store.old) }
    ensures { (store.new ≡ step_move net.now.table.now net.now.shape time r j store.old) × (result ≡ untrue_step net.now.table.now net.now.shape (step_frame net.now.shape j) (time - r.birth) store.old) }
{
    let u = one_step(
        net.table,
        store,
        net.shape,
        net.step_frame(j),
        since(time, r.birth),
    );
    put_stepped(store, r);
    u
}

// The event of action j, if any, is fired. It is a basic element's, so it speaks by its own associations.
fn fire_event(ix: &IndexedNetwork, store: &mut [u32], j: usize, birth: u32, time: u32)
    requires { j < actions_of ix.now.net.shape }
    ensures { store.new ≡ fire_found ix.now.net.table.now ix.now.net.shape (event_of ix.now.net.table.now ix.now.net.shape j) birth time store.old }
{
    let o = field(ix.net.table, ix.net.action_frame(j), 3);
    if o != NONE {
        let w = Voice {
            flag: OF_OUTPUT,
            event: o,
        };
        fire_by(ix, store, o, w, birth, time);
    }
}

// The steps of action j are done: its event is fired, and the next action comes.
pub fn end(ix: &IndexedNetwork, store: &mut [u32], time: u32, r: Running, j: usize)
    requires { (j < actions_of ix.now.net.shape) × (action_of ix.now.net.table.now ix.now.net.shape (state_of store.old) r.action ≡ one j) × (r.action < 4294967295) × (r ≡ running_of store.old) }
    ensures { store.new ≡ end_move ix.now.net.table.now ix.now.net.shape time (state_of store.old) r j store.old }
{
    let next = number_after(ix, state_of(store), j, r.action);
    fire_event(ix, store, j, r.birth, time);
    put_entered(store, r, next);
}
