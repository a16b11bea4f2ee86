// Firing an event.
#![tactic(auto)]

ghost use Rattle.std.specs.Prelude.{◌≡◌, ◌<◌, ◌≤◌};
ghost use Rattle.rules_tables.specs.Ids.{outputs};
ghost use Rattle.rules_moves.specs.Carry.{voice_of};
ghost use Rattle.rules_moves.specs.Fire.{mark as «mark_of», connects, copies, fire as «fire_of»};
ghost use Rattle.moves_fire.specs.Carried.{copies_from};
ghost use Rattle.store_words.specs.Small.{Small};

pub mod carry;
pub mod partner;

use crate::carry::{carried_by, voice_of};
use rules_moves::Voice;
use rules_tables::Shape;
use store_words::word::{
    counted, overwritten_count, put_buffer, put_input, put_overwritten, value_of, waiting_flag,
};
use table_frames::frame::field;
use table_index::indexed::IndexedNetwork;

// Event input i becomes waiting.
fn mark(store: &mut [u32], shape: Shape, birth: u32, time: u32, i: usize)
    requires { Small shape × (i < 65536) }
    ensures { store.new ≡ mark_of shape birth time i store.old }
{
    let n = counted(waiting_flag(store, shape, i), overwritten_count(store));
    put_overwritten(store, n);
    put_input(store, shape, i, 1, birth, time);
}

// The event connections of event output o, in table order.
fn connect_all(ix: &IndexedNetwork, store: &mut [u32], o: usize, birth: u32, time: u32)
    ensures { store.new ≡ connects ix.now.net.table.now ix.now.net.shape o birth time store.old }
{
    for j in ix.connections_of(o) {
        let f = ix.net.connection_frame(j);
        mark(store, ix.net.shape, birth, time, field(ix.net.table, f, 1));
    }
}

// The data connections from variable v, in table order.
fn copy_from(ix: &IndexedNetwork, store: &mut [u32], v: usize)
    ensures { store.new ≡ copies_from ix.now.net.table.now ix.now.net.shape v store.old }
{
    for j in ix.links_of(v) {
        let f = ix.net.link_frame(j);
        let x = value_of(store, ix.net.shape, v);
        put_buffer(store, ix.net.shape, field(ix.net.table, f, 1), x);
    }
}

// Exactly the data connections from the variables that the event carries; no other buffer may change.
fn copy_all(ix: &IndexedNetwork, store: &mut [u32], w: Voice)
    requires { w.flag ≤ 2 }
    ensures { store.new ≡ copies ix.now.net.table.now ix.now.net.shape w store.old }
{
    // A copy of its own: what it says of the table need not be read again after each word of the store that is written.
    let here = *ix;
    for j in here.associations_of(w.flag, w.event) {
        copy_from(&here, store, carried_by(&here, w, j));
    }
}

// Event output o is fired with this birth; w tells the associations that speak for it.
pub fn fire_by(ix: &IndexedNetwork, store: &mut [u32], o: usize, w: Voice, birth: u32, time: u32)
    requires { w ≡ voice_of ix.now.net.table.now ix.now.net.shape o }
    ensures { store.new ≡ fire_of ix.now.net.table.now ix.now.net.shape o birth time store.old }
{
    connect_all(ix, store, o, birth, time);
    copy_all(ix, store, w);
}

// Event output o is fired with this birth.
pub fn fire(ix: &IndexedNetwork, store: &mut [u32], o: usize, birth: u32, time: u32)
    requires { o < outputs ix.now.net.shape }
    ensures { store.new ≡ fire_of ix.now.net.table.now ix.now.net.shape o birth time store.old }
{
    connect_all(ix, store, o, birth, time);
    copy_all(ix, store, voice_of(&ix.net, o));
}
