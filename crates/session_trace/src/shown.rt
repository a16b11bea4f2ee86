// A store printed: its chart states and values by element.
//
// Room in the text: a number has at most 20 digits and a sign. So a variable's line has at most 56 bytes, an element's 67 and the first line 28.
ghost use Rattle.std.specs.Prelude.{◌≡◌, true, false, ◌+◌, ◌*◌, ◌<◌, ◌≤◌, length};
ghost use Rattle.rules_tables.specs.Ids.{elements as «elements_of», variables as «variables_of»};
ghost use Rattle.rules_traces.specs.Gather.{gather};
ghost use Rattle.rules_shows.specs.Shown.{sort_word, role_word, variable_line, variable_text, state_text, element_line, element_text, shown_text};
ghost use Rattle.lines.specs.Printed.{Printed};
ghost use Rattle.session_trace.specs.Owned.{owned, owned_count};

use crate::words::{put_number, put_signed, put_word};
use store_words::network::Network;
use store_words::word::{chart_state, value_of};
use table_frames::frame::{field, flag};
use table_frames::kind::{BASIC, DELAY, INPUT, INTERFACE, OUTPUT, SOURCE};

// The sort of an element.
#[tactic(auto, unfolding(rules_shows::specs::Shown::sort_word, rules_walks::specs::Choose::choose))]
fn sort_word(sort: usize) -> &'static [u8]
    ensures { (result.now ≡ sort_word sort) × (length result.now ≤ 9) }
{
    match sort {
        BASIC => b"basic",
        INTERFACE => b"interface",
        DELAY => b"delay",
        SOURCE => b"source",
        _ => b"sink",
    }
}

// The role of a variable.
#[tactic(auto, unfolding(rules_shows::specs::Shown::role_word, rules_walks::specs::Choose::choose))]
fn role_word(role: usize) -> &'static [u8]
    ensures { (result.now ≡ role_word role) × (length result.now ≤ 11) }
{
    match role {
        INPUT => b"  input ",
        OUTPUT => b"  output ",
        _ => b"  internal ",
    }
}

// The line of variable v.
fn put_variable(net: &Network, store: &[u32], v: usize, text: &mut [u8], at: usize) -> usize
    requires { (v < variables_of net.now.shape) × (at + 56 ≤ length text.old) }
    ensures { Printed (variable_line net.now.table.now net.now.shape store.now v) at (at + 56) result text.old text.new }
{
    let role = flag(net.table, net.variable_frame(v));
    let value = value_of(store, net.shape, v);
    let named = put_word(role_word(role), text, at);
    let numbered = put_number(v as u64, text, named);
    let set = put_word(b" = ", text, numbered);
    let told = put_signed(value, text, set);
    put_word(b"\n", text, told)
}

// The same where it belongs to element el, else nothing.
fn put_owned(net: &Network, store: &[u32], el: usize, v: usize, text: &mut [u8], at: usize) -> usize
    requires { (v < variables_of net.now.shape) × (owned net.now.table.now net.now.shape el v ≡ true → at + 56 ≤ length text.old) }
    ensures { Printed (variable_text net.now.table.now net.now.shape store.now el v) at (at + 56) result text.old text.new
        × (owned net.now.table.now net.now.shape el v ≡ false → result ≡ at) }
{
    if field(net.table, net.variable_frame(v), 0) == el {
        put_variable(net, store, v, text, at)
    } else {
        at
    }
}

// The lines of the variables of element el, by id.
fn put_variables(net: &Network, store: &[u32], el: usize, text: &mut [u8], at: usize) -> usize
    requires { at + 56 * owned_count net.now.table.now net.now.shape el ≤ length text.old }
    ensures { Printed (gather (variable_text net.now.table.now net.now.shape store.now el) (variables_of net.now.shape)) at (at + 56 * owned_count net.now.table.now net.now.shape el) result text.old text.new }
{
    let mut p = at;
    for v in 0..net.shape.variables() {
        p = put_owned(net, store, el, v, text, p);
    }
    p
}

// The chart state of element el, where its sort has a chart.
fn put_state(sort: usize, store: &[u32], el: usize, text: &mut [u8], at: usize) -> usize
    requires { (el < 64) × (at + 28 ≤ length text.old) }
    ensures { Printed (state_text sort store.now el) at (at + 28) result text.old text.new }
{
    if sort != BASIC {
        return at;
    }
    let state = chart_state(store, el);
    let named = put_word(b", state ", text, at);
    put_number(state as u64, text, named)
}

// The line of element el.
fn put_line_of(net: &Network, store: &[u32], el: usize, text: &mut [u8], at: usize) -> usize
    requires { (el < elements_of net.now.shape) × (at + 67 ≤ length text.old) }
    ensures { Printed (element_line net.now.table.now store.now el) at (at + 67) result text.old text.new }
{
    let sort = flag(net.table, el);
    let named = put_word(b"element ", text, at);
    let numbered = put_number(el as u64, text, named);
    let apart = put_word(b" ", text, numbered);
    let sorted = put_word(sort_word(sort), text, apart);
    let told = put_state(sort, store, el, text, sorted);
    put_word(b"\n", text, told)
}

// Element el and its variables.
fn put_element(net: &Network, store: &[u32], el: usize, text: &mut [u8], at: usize) -> usize
    requires { (el < elements_of net.now.shape) × (at + 67 + 56 * owned_count net.now.table.now net.now.shape el ≤ length text.old) }
    ensures { Printed (element_text net.now.table.now net.now.shape store.now el) at (at + 67 + 56 * owned_count net.now.table.now net.now.shape el) result text.old text.new }
{
    let from = put_line_of(net, store, el, text, at);
    put_variables(net, store, el, text, from)
}

// All elements. There are at most 64, with 512 variables.
fn put_elements(net: &Network, store: &[u32], text: &mut [u8], at: usize) -> usize
    requires { at + 32960 ≤ length text.old }
    ensures { Printed (gather (element_text net.now.table.now net.now.shape store.now) (elements_of net.now.shape)) at (at + 32960) result text.old text.new }
{
    let mut p = at;
    for el in 0..net.shape.elements() {
        p = put_element(net, store, el, text, p);
    }
    p
}

// What the store shows after so many frames.
pub fn put_shown(net: &Network, store: &[u32], frames: usize, text: &mut [u8], at: usize) -> usize
    requires { at + 32988 ≤ length text.old }
    ensures { Printed (shown_text net.now.table.now net.now.shape store.now frames) at (at + 32988) result text.old text.new }
{
    let named = put_word(b"frames ", text, at);
    let numbered = put_number(frames as u64, text, named);
    let from = put_word(b"\n", text, numbered);
    put_elements(net, store, text, from)
}
