// Load, advance, arrival and run, and the reader of a trace.
#![tactic(auto)]

ghost use Rattle.std.specs.Prelude.{◌≡◌, ◌<◌, MatchResult};
ghost use Rattle.rules_tables.specs.Judge.{judge, shape_of, refused as «refused_by»};
ghost use Rattle.rules_store.specs.Earliest.{NextKept};
ghost use Rattle.rules_calls.specs.Answer.{refused_of};
ghost use Rattle.rules_calls.specs.Refusals.{load_refusal, store_refusal, time_refusal, event_refusal};
ghost use Rattle.rules_calls.specs.Public.{LoadCall, AdvanceCall, ArrivalCall, RunCall};
ghost use Rattle.calls.specs.Opening.{Passes, Refuses, Stands};

pub mod show;
pub mod traced;

use calls_run::calls::{advance_to, arrive, beyond_due, of_source, value_count, wrong_time};
use calls_run::running::run_moves;
use rules_calls::{Answer, Outcome};
use rules_tables::{Refusal, Shape};
use store_load::formed::well_formed;
use store_load::load::load as load_store;
use store_words::network::Network;
use store_words::shape::need;
use store_words::word::time;
use table_check::check;

// The answer for a table that was not accepted; there is nothing to tell of one that was.
pub fn refused(judged: Result<Shape, Refusal>) -> Answer
    ensures { result ≡ refused_of judged }
{
    judged?;
    Ok(Outcome::Done)
}

// The refusal of this number, which names no frame.
fn refuse(number: usize) -> Result<(), Refusal>
    requires { 0 < number }
    ensures { Passes number result }
{
    Err(Refusal { number, frame: 0 })
}

// The network of a table, where the check accepts it: 1 to 4.
fn network(t: &[u8]) -> Result<Network, Refusal>
    ensures { MatchResult result (λ net. Stands t.now net.table.now net.shape) (λ r. judge t.now ≡ «refused_by» r.number r.frame) }
{
    let shape = check(t)?;
    Ok(Network { table: t, shape })
}

// 5.
fn length_refusal(net: &Network, store: &[u32]) -> Result<(), Refusal>
    ensures { Passes (load_refusal net.now.shape store.now) result }
{
    if store.len() < need(net.shape) {
        return refuse(5);
    }
    Ok(())
}

// 5 or 6.
pub fn store_refusal(net: &Network, store: &[u32]) -> Result<(), Refusal>
    ensures { Passes (store_refusal net.now.table.now net.now.shape store.now) result }
{
    length_refusal(net, store)?;
    if well_formed(net, store) {
        Ok(())
    } else {
        refuse(6)
    }
}

// 7 or 8.
fn time_refusal(store: &[u32], shape: Shape, to: u32) -> Result<(), Refusal>
    requires { NextKept shape store.now }
    ensures { Passes (time_refusal shape store.now to) result }
{
    if wrong_time(store, to) {
        return refuse(7);
    }
    if beyond_due(store, shape, to) {
        return refuse(8);
    }
    Ok(())
}

// 9, 10 or 11.
fn event_refusal(
    net: &Network,
    store: &[u32],
    event: usize,
    birth: u32,
    values: &[u32],
) -> Result<(), Refusal>
    ensures { Passes (event_refusal net.now.table.now net.now.shape store.now event birth values.now) result }
{
    if !of_source(net, event) {
        return refuse(9);
    }
    if time(store) < birth {
        return refuse(10);
    }
    if values.len() != value_count(net, event) {
        return refuse(11);
    }
    Ok(())
}

// Opens a call on a store that was loaded: the network of the table, where neither the table nor the store is refused.
fn open<'a>(t: &'a [u8], store: &[u32]) -> Result<Network<'a>, Refusal>
    ensures { MatchResult result (λ net. Stands t.now net.table.now net.shape × (store_refusal t.now (shape_of t.now) store.now ≡ 0))
        (Refuses (judge t.now) (store_refusal t.now (shape_of t.now) store.now)) }
{
    let net = network(t)?;
    store_refusal(&net, store)?;
    Ok(net)
}

// Opens a call that reads no word of the store: the network of the table, where the table is accepted and the store has its need.
fn open_any<'a>(t: &'a [u8], store: &[u32]) -> Result<Network<'a>, Refusal>
    ensures { MatchResult result (λ net. Stands t.now net.table.now net.shape × (load_refusal (shape_of t.now) store.now ≡ 0))
        (Refuses (judge t.now) (load_refusal (shape_of t.now) store.now)) }
{
    let net = network(t)?;
    length_refusal(&net, store)?;
    Ok(net)
}

// Zeroes the store's need and sets initial chart states and start values; words past the need are not touched.
pub fn load(t: &[u8], store: &mut [u32]) -> Answer
    ensures { LoadCall t.now store.old result store.new }
{
    let net = open_any(t, store)?;
    load_store(&net, store);
    Ok(Outcome::Done)
}

// Sets now to the time `to`, then fires each delay that is due then.
pub fn advance(t: &[u8], store: &mut [u32], to: u32) -> Answer
    ensures { AdvanceCall t.now store.old to result store.new }
{
    let net = open(t, store)?;
    time_refusal(store, net.shape, to)?;
    advance_to(&net, store, to);
    Ok(Outcome::Done)
}

// Puts the values (two's complement words) into the event's associated output variables, then fires it with this birth.
pub fn arrival(t: &[u8], store: &mut [u32], event: usize, birth: u32, values: &[u32]) -> Answer
    ensures { ArrivalCall t.now store.old event birth values.now result store.new }
{
    let net = open(t, store)?;
    event_refusal(&net, store, event, birth, values)?;
    arrive(&net, store, event, birth, values);
    Ok(Outcome::Done)
}

// Makes moves until no move exists (1), else the next move's record has no room (3), else the budget is used (2).
pub fn run(t: &[u8], store: &mut [u32], budget: u32, out: &mut [u8]) -> Answer
    ensures { RunCall t.now store.old budget out.old result store.new out.new }
{
    let net = open(t, store)?;
    let at = time(store);
    let mut none = [0u8; 0];
    let r = run_moves(&net, store, at, budget, out, &mut none, false);
    Ok(Outcome::Ran(r.moves, r.bytes, r.stop, r.untrue))
}
