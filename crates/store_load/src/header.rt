// Whether the first words of a store are well formed: the spare words, the next due time, the running block.
ghost use Rattle.std.specs.Prelude.{◌≡◌};
ghost use Rattle.rules_walks.specs.All.{all_to};
ghost use Rattle.rules_tables.specs.Actions.{action_of};
ghost use Rattle.rules_store.specs.Word.{spares};
ghost use Rattle.store_words.specs.Small.{Small};
ghost use Rattle.rules_store.specs.WellFormed.{spare_ok, next_ok, owner_ok, step_ok, mode_ok, running_ok};

use numbers::word::wide;
use rules_store::{ACTS, CHARTS, IDLE, Running};
use rules_tables::Shape;
use store_words::due::earliest;
use store_words::network::Network;
use store_words::word::{
    SPARES, chart_state, current_event, next_due, running_element, spare, time,
};
use table_frames::frame::{field, flag};
use table_frames::kind::BASIC;

// Words 12 to 15 are zero.
pub fn spares_ok(store: &[u32]) -> bool
    ensures { result ≡ all_to (spare_ok store.now) spares }
{
    (0..SPARES).all(|j| spare(store, j) == 0)
}

// The next due time is the one found by looking.
#[tactic(auto, unfolding(rules_store::specs::WellFormed::next_ok, rules_store::specs::WellFormed::is_next))]
pub fn next_ok(store: &[u32], shape: Shape) -> bool
    requires { Small shape }
    ensures { result ≡ next_ok shape store.now }
{
    next_due(store) == earliest(store, shape.elements())
}

// Element e and event input i, both plus 1: the element basic, the event its own.
#[tactic(auto, unfolding(rules_store::specs::WellFormed::owner_ok))]
fn owner_ok(net: &Network, e: usize, i: usize) -> bool
    ensures { result ≡ owner_ok net.now.table.now net.now.shape e i }
{
    1 <= e
        && e <= net.shape.elements()
        && flag(net.table, e - 1) == BASIC
        && 1 <= i
        && i <= net.shape.inputs()
        && field(net.table, net.input_frame(i - 1), 0) == e - 1
}

// Step at most the steps of the action that was found; without one, action and step 0.
#[tactic(auto, unfolding(rules_store::specs::WellFormed::step_ok))]
fn step_ok(net: &Network, q: usize, r: Running) -> bool
    ensures { result ≡ step_ok net.now.table.now net.now.shape r (action_of net.now.table.now net.now.shape q r.action) }
{
    let Some(j) = net.action_of(q, wide(r.action)) else {
        return r.action == 0 && r.step == 0;
    };
    wide(r.step) <= field(net.table, net.action_frame(j), 2)
}

// Mode 1 has action and step 0; mode 2 has live 0, and action and step within their bounds.
#[tactic(auto, unfolding(rules_store::specs::WellFormed::mode_ok))]
fn mode_ok(net: &Network, r: Running, q: usize) -> bool
    ensures { result ≡ mode_ok net.now.table.now net.now.shape r q }
{
    if r.mode == CHARTS {
        return r.live <= 1 && r.action == 0 && r.step == 0;
    }
    r.mode == ACTS && r.live == 0 && step_ok(net, q, r)
}

// The running block. Idle means that words 1 to 7 are zero.
#[tactic(auto, unfolding(rules_store::specs::WellFormed::running_ok, rules_store::specs::WellFormed::rest_ok))]
pub fn running_ok(net: &Network, store: &[u32], r: Running) -> bool
    ensures { result ≡ running_ok net.now.table.now net.now.shape r store.now }
{
    if r.mode == IDLE {
        return running_element(store) == 0 && current_event(store) == 0 && r == Running::rest();
    }
    let e = wide(running_element(store));
    owner_ok(net, e, wide(current_event(store)))
        && r.birth <= time(store)
        && mode_ok(net, r, wide(chart_state(store, e - 1)))
}
