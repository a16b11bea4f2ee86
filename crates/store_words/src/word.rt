// The words of the store by name. A place past the store's end reads 0 and is not written, so that no place has to be looked at twice.
ghost use Rattle.std.specs.Prelude.{◌≡◌, not, ◌+◌, ◌*◌, ◌<◌, ◌≤◌, eqb, length, get_or, set};
ghost use Rattle.numbers.specs.Bounded.{Bounded};
ghost use Rattle.rules_tables.specs.Ids.{inputs as «inputs_of», variables as «variables_of»};
ghost use Rattle.rules_store.specs.Layout.{need, element_at, input_at, variable_at};
ghost use Rattle.rules_store.specs.Running.{stepped, charting, entered};
ghost use Rattle.store_words.specs.Small.{Small};
ghost use Rattle.rules_store.specs.Word.{counted as «counted_of», spares, spare_at, now_of, put_now, running_element, current_event, put_owner, running_of, put_running, overwritten, put_overwritten, next_due, put_next, untrue, put_untrue, spare_word, chart_state, put_chart_state, due_flag, due_time, set_due, waiting, birth_of, last_update, put_input, value, put_value, buffer, put_buffer};

use rules_store::{NextDue, Running};
use rules_tables::Shape;

// The largest time.
pub const LARGEST_TIME: u32 = 2147483647;

// The largest due time.
pub const LARGEST_DUE: u32 = 4294967294;

// Where the counts stop: of overwritten events, and of untrue steps.
pub const COUNT_END: u32 = 4294967295;

// Such a count, one more where w is not 0.
pub fn counted(w: u32, n: u32) -> u32
    ensures { result ≡ counted_of w n }
{
    if w == 0 {
        return n;
    }
    if n < COUNT_END { n + 1 } else { n }
}

fn word(store: &[u32], k: usize) -> u32
    ensures { result ≡ get_or store.now k 0 }
{
    if k < store.len() { store[k] } else { 0 }
}

fn put(store: &mut [u32], k: usize, x: u32)
    ensures { store.new ≡ set store.old k x }
{
    if k < store.len() {
        store[k] = x;
    }
}

// Now.
pub fn time(store: &[u32]) -> u32
    ensures { result ≡ now_of store.now }
{
    word(store, 0)
}

// Sets now.
pub fn put_time(store: &mut [u32], x: u32)
    ensures { store.new ≡ put_now x store.old }
{
    put(store, 0, x);
}

// The running element plus 1, or 0.
pub fn running_element(store: &[u32]) -> u32
    ensures { result ≡ running_element store.now }
{
    word(store, 1)
}

// The current event plus 1, or 0.
pub fn current_event(store: &[u32]) -> u32
    ensures { result ≡ current_event store.now }
{
    word(store, 2)
}

// Sets both.
pub fn put_owner(store: &mut [u32], el: u32, ev: u32)
    ensures { store.new ≡ put_owner el ev store.old }
{
    put(store, 1, el);
    put(store, 2, ev);
}

// The running block.
pub fn running(store: &[u32]) -> Running
    ensures { result ≡ running_of store.now }
{
    Running {
        birth: word(store, 3),
        mode: word(store, 4),
        live: word(store, 5),
        action: word(store, 6),
        step: word(store, 7),
    }
}

// Sets it.
pub fn put_running(store: &mut [u32], r: Running)
    ensures { store.new ≡ put_running r store.old }
{
    put(store, 3, r.birth);
    put(store, 4, r.mode);
    put(store, 5, r.live);
    put(store, 6, r.action);
    put(store, 7, r.step);
}

// The running block goes on to its next one: of each only the words are written that differ from what the store has, which is r.
// After a step: the step number.
pub fn put_stepped(store: &mut [u32], r: Running)
    requires { (r ≡ running_of store.old) × (r.step < 4294967295) }
    ensures { store.new ≡ put_running (stepped r) store.old }
{
    let next = r.stepped();
    put(store, 7, next.step);
}

// Where all actions are done: the mode.
pub fn put_charting(store: &mut [u32], r: Running)
    requires { r ≡ running_of store.old }
    ensures { store.new ≡ put_running (charting r) store.old }
{
    let next = r.charting();
    put(store, 4, next.mode);
}

// At an action, or at none: all but the birth.
pub fn put_entered(store: &mut [u32], r: Running, action: u32)
    requires { r ≡ running_of store.old }
    ensures { store.new ≡ put_running (entered action r) store.old }
{
    let next = r.entered(action);
    put(store, 4, next.mode);
    put(store, 5, next.live);
    put(store, 6, next.action);
    put(store, 7, next.step);
}

// The overwritten count.
pub fn overwritten_count(store: &[u32]) -> u32
    ensures { result ≡ overwritten store.now }
{
    word(store, 8)
}

// Sets it.
pub fn put_overwritten(store: &mut [u32], x: u32)
    ensures { store.new ≡ put_overwritten x store.old }
{
    put(store, 8, x);
}

// The next due time, as the store has it.
pub fn next_due(store: &[u32]) -> NextDue
    ensures { result ≡ next_due store.now }
{
    NextDue {
        due: word(store, 9),
        time: word(store, 10),
    }
}

// Sets it. For the writer of due words alone (due::put_due).
pub fn put_next(store: &mut [u32], next: NextDue)
    ensures { store.new ≡ put_next next store.old }
{
    put(store, 9, next.due);
    put(store, 10, next.time);
}

// The count of untrue steps.
pub fn untrue_count(store: &[u32]) -> u32
    ensures { result ≡ untrue store.now }
{
    word(store, 11)
}

// Sets it.
pub fn put_untrue(store: &mut [u32], x: u32)
    ensures { store.new ≡ put_untrue x store.old }
{
    put(store, 11, x);
}

// The words that are zero: 12 to 15.
pub const SPARES: usize = 4;

// Where word j of them lies.
fn spare_at(j: usize) -> usize
    requires { j < spares }
    ensures { result ≡ spare_at j }
{
    12 + j
}

// What it holds.
pub fn spare(store: &[u32], j: usize) -> u32
    requires { j < spares }
    ensures { result ≡ spare_word store.now j }
{
    word(store, spare_at(j))
}

// Where the words of element el start.
fn element_at(el: usize) -> usize
    requires { el < 4294967296 }
    ensures { Bounded 12884901904 (element_at el) result }
{
    16 + 3 * el
}

// Where the words of event input i start.
fn input_at(shape: Shape, i: usize) -> usize
    requires { Small shape × (i < 65536) }
    ensures { Bounded 1000000 (input_at shape i) result }
{
    16 + 3 * shape.elements_end + 3 * i
}

// Where the words of variable v start.
fn variable_at(shape: Shape, v: usize) -> usize
    requires { Small shape × (v < 65536) }
    ensures { Bounded 1000000 (variable_at shape v) result }
{
    16 + 3 * shape.elements_end + 3 * shape.inputs() + 2 * v
}

// The chart state of element el.
pub fn chart_state(store: &[u32], el: usize) -> u32
    requires { el < 4294967296 }
    ensures { result ≡ chart_state store.now el }
{
    word(store, element_at(el))
}

// Sets it.
pub fn put_chart_state(store: &mut [u32], el: usize, q: u32)
    requires { el < 4294967296 }
    ensures { store.new ≡ put_chart_state el q store.old }
{
    put(store, element_at(el), q);
}

// The due flag of element el.
pub fn due_flag(store: &[u32], el: usize) -> u32
    requires { el < 4294967296 }
    ensures { result ≡ due_flag store.now el }
{
    word(store, element_at(el) + 1)
}

// Its due time.
pub fn due_time(store: &[u32], el: usize) -> u32
    requires { el < 4294967296 }
    ensures { result ≡ due_time store.now el }
{
    word(store, element_at(el) + 2)
}

// Sets both. For the writer of due words alone (due::put_due).
pub fn set_due(store: &mut [u32], el: usize, flag: u32, time: u32)
    requires { el < 4294967296 }
    ensures { store.new ≡ set_due el flag time store.old }
{
    let at = element_at(el);
    put(store, at + 1, flag);
    put(store, at + 2, time);
}

// The waiting flag of event input i.
pub fn waiting_flag(store: &[u32], shape: Shape, i: usize) -> u32
    requires { Small shape × (i < 65536) }
    ensures { result ≡ waiting shape store.now i }
{
    word(store, input_at(shape, i))
}

// Event input i waits. Who asks knows that the store has its need, so its length is not looked at.
pub fn waits(store: &[u32], shape: Shape, i: usize) -> bool
    requires { Small shape × (i < inputs_of shape) × (need shape ≤ length store.now) }
    ensures { result ≡ not (eqb (waiting shape store.now i) 0) }
{
    let at = input_at(shape, i);
    store[at] != 0
}

// Its birth.
pub fn birth(store: &[u32], shape: Shape, i: usize) -> u32
    requires { Small shape × (i < 65536) }
    ensures { result ≡ birth_of shape store.now i }
{
    word(store, input_at(shape, i) + 1)
}

// The same of a store that has its need.
pub fn birth_in(store: &[u32], shape: Shape, i: usize) -> u32
    requires { Small shape × (i < inputs_of shape) × (need shape ≤ length store.now) }
    ensures { result ≡ birth_of shape store.now i }
{
    let at = input_at(shape, i) + 1;
    store[at]
}

// Its last update.
pub fn last_update(store: &[u32], shape: Shape, i: usize) -> u32
    requires { Small shape × (i < 65536) }
    ensures { result ≡ last_update shape store.now i }
{
    word(store, input_at(shape, i) + 2)
}

// The same of a store that has its need.
pub fn last_update_in(store: &[u32], shape: Shape, i: usize) -> u32
    requires { Small shape × (i < inputs_of shape) × (need shape ≤ length store.now) }
    ensures { result ≡ last_update shape store.now i }
{
    let at = input_at(shape, i) + 2;
    store[at]
}

// Sets all three.
pub fn put_input(store: &mut [u32], shape: Shape, i: usize, flag: u32, birth: u32, last: u32)
    requires { Small shape × (i < 65536) }
    ensures { store.new ≡ put_input shape i flag birth last store.old }
{
    let at = input_at(shape, i);
    put(store, at, flag);
    put(store, at + 1, birth);
    put(store, at + 2, last);
}

// The same of a store that has its need.
pub fn put_input_in(store: &mut [u32], shape: Shape, i: usize, flag: u32, birth: u32, last: u32)
    requires { Small shape × (i < inputs_of shape) × (need shape ≤ length store.old) }
    ensures { store.new ≡ put_input shape i flag birth last store.old }
{
    let at = input_at(shape, i);
    store[at] = flag;
    store[at + 1] = birth;
    store[at + 2] = last;
}

// The value of variable v.
pub fn value_of(store: &[u32], shape: Shape, v: usize) -> u32
    requires { Small shape × (v < 65536) }
    ensures { result ≡ value shape store.now v }
{
    word(store, variable_at(shape, v))
}

// The same of a store that has its need, as `waits`.
pub fn value_in(store: &[u32], shape: Shape, v: usize) -> u32
    requires { Small shape × (v < variables_of shape) × (need shape ≤ length store.now) }
    ensures { result ≡ value shape store.now v }
{
    let at = variable_at(shape, v);
    store[at]
}

// Sets it.
pub fn put_value(store: &mut [u32], shape: Shape, v: usize, x: u32)
    requires { Small shape × (v < 65536) }
    ensures { store.new ≡ put_value shape v x store.old }
{
    put(store, variable_at(shape, v), x);
}

// Its buffer.
pub fn buffer_of(store: &[u32], shape: Shape, v: usize) -> u32
    requires { Small shape × (v < 65536) }
    ensures { result ≡ buffer shape store.now v }
{
    word(store, variable_at(shape, v) + 1)
}

// The same of a store that has its need.
pub fn buffer_in(store: &[u32], shape: Shape, v: usize) -> u32
    requires { Small shape × (v < variables_of shape) × (need shape ≤ length store.now) }
    ensures { result ≡ buffer shape store.now v }
{
    let at = variable_at(shape, v) + 1;
    store[at]
}

// Sets it.
pub fn put_buffer(store: &mut [u32], shape: Shape, v: usize, x: u32)
    requires { Small shape × (v < 65536) }
    ensures { store.new ≡ put_buffer shape v x store.old }
{
    put(store, variable_at(shape, v) + 1, x);
}
