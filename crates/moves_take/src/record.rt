// Records: element, event input (2 bytes each), birth, last update, now, then associated values in table order (4 each).
ghost use Rattle.std.specs.Prelude.{◌≡◌, ◌+◌, ◌*◌, ◌<◌, ◌≤◌, length, ◌++◌};
ghost use Rattle.std.proofs.lemmas.List.Edits.{sets};
ghost use Rattle.rules_tables.specs.Kind.{of_input};
ghost use Rattle.rules_tables.specs.Ids.{inputs, associations as «associations_of»};
ghost use Rattle.rules_walks.specs.Count.{count_if};
ghost use Rattle.rules_moves.specs.Carry.{voice, speaks as «speaks_at»};
ghost use Rattle.rules_moves.specs.Take.{samples};
ghost use Rattle.rules_moves.specs.Record.{head as «head_of», values as «values_of», record_size};
ghost use Rattle.moves_take.specs.Received.{Sized};

use crate::{Taken, sample};
use numbers::bytes::{put_half, put_word};
use store_words::network::Network;
use table_frames::frame::{field, flag};
use table_frames::kind::{OF_INPUT, SINK};
use table_index::indexed::IndexedNetwork;
use table_parts::rank;

// The length of a record of event input i: its head, and a value for each of its associations. It is asked where hardly any room is left, or of a record that
// was written, so all associations are gone through: that needs no index.
pub fn record_size(net: &Network, i: usize) -> usize
    ensures { (result ≡ record_size net.now.table.now net.now.shape i) × (result < 65536) }
{
    16 + 4
        * rank(
            net.table,
            net.shape.variables_end,
            OF_INPUT,
            i,
            net.shape.associations(),
        )
}

// The bytes that taking event input i writes: only a sink's has any.
pub fn written_size(net: &Network, i: usize) -> usize
    requires { i < inputs net.now.shape }
    ensures { Sized net.now.table.now net.now.shape i result }
{
    if flag(net.table, field(net.table, net.input_frame(i), 0)) == SINK {
        record_size(net, i)
    } else {
        0
    }
}

// The first 16 bytes, at `at`.
fn write_head(out: &mut [u8], at: usize, el: u16, i: u16, birth: u32, last: u32, time: u32)
    requires { at + 16 ≤ length out.old }
    ensures { out.new ≡ sets out.old at (head_of el i birth last time) }
{
    put_half(out, at, el);
    put_half(out, at + 2, i);
    put_word(out, at + 4, birth);
    put_word(out, at + 8, last);
    put_word(out, at + 12, time);
}

// Associated inputs get value from buffer, and each value goes to the output as it is sampled, from `at` on; the answer is the place after them.
fn sample_into(ix: &IndexedNetwork, store: &mut [u32], i: usize, out: &mut [u8], at: usize) -> usize
    requires { at + 4 * count_if (speaks_at ix.now.net.table.now ix.now.net.shape (voice of_input i)) (associations_of ix.now.net.shape) ≤ length out.old }
    ensures { (store.new ≡ samples ix.now.net.table.now ix.now.net.shape i store.old)
        × (out.new ≡ sets out.old at (values_of ix.now.net.table.now ix.now.net.shape (samples ix.now.net.table.now ix.now.net.shape i store.old) i))
        × (result ≡ at + 4 * count_if (speaks_at ix.now.net.table.now ix.now.net.shape (voice of_input i)) (associations_of ix.now.net.shape)) }
{
    let mut p = at;
    for j in ix.associations_of(OF_INPUT, i) {
        let v = field(ix.net.table, ix.net.association_frame(j), 1);
        let x = sample(store, ix.net.shape, v);
        put_word(out, p, x);
        p += 4;
    }
    p
}

// Sink: the inputs of the event e are sampled, and its record is written at `at`; the answer is the place after it.
pub fn write_record(
    ix: &IndexedNetwork,
    store: &mut [u32],
    e: Taken,
    time: u32,
    out: &mut [u8],
    at: usize,
) -> usize
    requires { (e.element < 65536) × (e.input < inputs ix.now.net.shape) × (at + record_size ix.now.net.table.now ix.now.net.shape e.input ≤ length out.old) }
    ensures { (store.new ≡ samples ix.now.net.table.now ix.now.net.shape e.input store.old)
        × (out.new ≡ sets out.old at (head_of e.element e.input e.birth e.last time ++ values_of ix.now.net.table.now ix.now.net.shape (samples ix.now.net.table.now ix.now.net.shape e.input store.old) e.input))
        × (result ≡ at + record_size ix.now.net.table.now ix.now.net.shape e.input) }
{
    let i = e.input;
    write_head(out, at, e.element as u16, i as u16, e.birth, e.last, time);
    sample_into(ix, store, i, out, at + 16)
}
