// The reading of a trace, line by line.
ghost use Rattle.std.specs.Prelude.{◌≡◌, ◌+◌, ◌*◌, ◌<◌, ◌≤◌, length};
ghost use Rattle.store_words.specs.Small.{Small};
ghost use Rattle.rules_traces.specs.Reader.{shown_of, ended_by, show_entry, shown_after};
ghost use Rattle.calls_show.specs.Charted.{Charted};
ghost use Rattle.calls_show.specs.Said.{Says};

use crate::frame::{entry_in, right_frame};
use crate::known::known_entry;
use crate::line::{another_line, frame_at, whole_line};
use rules_tables::Shape;
use rules_traces::{CHART_KIND, Entry, STARTED_KIND};
use store_words::network::Network;
use store_words::word::{put_chart_state, put_value};

// What was read: how many frames, and the line that ended the reading, from 1, or 0.
#[derive(Clone, Copy)]
pub struct Read {
    pub shown: usize,
    pub line: usize,
}

// What line k says: an entry, or nothing where it ends the reading or is not there.
fn said_by(net: &Network, text: &[u8], k: usize) -> Option<Entry>
    requires { Charted net.now.table.now net.now.shape × (25 * k ≤ length text.now + 1) }
    ensures { Says net.now.table.now net.now.shape text.now k result }
{
    if !another_line(text, k) || !whole_line(text, k) {
        return None;
    }
    let frame = frame_at(text, k);
    if !right_frame(&frame) {
        return None;
    }
    let e = entry_in(&frame);
    if known_entry(net, e) { Some(e) } else { None }
}

// What an entry says of chart states and values goes to the store.
fn show_entry(store: &mut [u32], shape: Shape, e: Entry)
    requires { Small shape × (e.block < 65536) × (e.id < 65536) }
    ensures { store.new ≡ show_entry shape e store.old }
{
    if e.kind == CHART_KIND {
        put_chart_state(store, e.block, e.value);
    } else if e.kind < STARTED_KIND {
        put_value(store, shape, e.id, e.value);
    }
}

// The line that ended the reading after n frames, from 1, or 0.
#[tactic(auto, unfolding(rules_traces::specs::Reader::ended_by))]
fn ended_by(text: &[u8], frames: usize, n: usize) -> usize
    requires { 25 * n ≤ length text.now + 1 }
    ensures { result ≡ ended_by text.now frames n }
{
    if n < frames && another_line(text, n) {
        n + 1
    } else {
        0
    }
}

// Shows what the first `frames` lines say, as far as they can be read.
pub fn show_frames(net: &Network, store: &mut [u32], text: &[u8], frames: usize) -> Read
    requires { Charted net.now.table.now net.now.shape }
    ensures { (result.shown ≡ shown_of net.now.table.now net.now.shape text.now frames) × (result.line ≡ ended_by text.now frames result.shown)
        × (store.new ≡ shown_after net.now.shape text.now result.shown store.old) }
{
    for n in 0..frames {
        let Some(e) = said_by(net, text, n) else {
            return Read {
                shown: n,
                line: ended_by(text, frames, n),
            };
        };
        show_entry(store, net.shape, e);
    }
    Read {
        shown: frames,
        line: 0,
    }
}
