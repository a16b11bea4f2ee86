// The partners of an interface: the k-th belong together.
ghost use Rattle.std.specs.Prelude.{◌≡◌, ◌<◌};
ghost use Rattle.rules_tables.specs.Ids.{inputs as «inputs_of», outputs as «outputs_of», variables as «variables_of»};
ghost use Rattle.table_parts.specs.Found.{found_of};
ghost use Rattle.rules_moves.specs.Partner.{partner_output, partner_input, partner_variable};

use store_words::network::Network;
use table_frames::frame::field;
use table_index::indexed::IndexedNetwork;
use table_parts::{ANY, nth, rank};

// The event output that belongs to event input i.
pub fn partner_output(ix: &IndexedNetwork, i: usize) -> Option<usize>
    requires { i < inputs_of ix.now.net.shape }
    ensures { result ≡ found_of (partner_output ix.now.net.table.now ix.now.net.shape i) }
{
    let o = ix.output_partner(i);
    if o < ix.net.shape.outputs() {
        Some(o)
    } else {
        None
    }
}

// The event input that belongs to event output o. It is looked for without the index: no event of an interface is fired but by its partner.
pub fn partner_input(net: &Network, o: usize) -> Option<usize>
    requires { o < outputs_of net.now.shape }
    ensures { result ≡ found_of (partner_input net.now.table.now net.now.shape o) }
{
    let el = field(net.table, net.output_frame(o), 0);
    let k = rank(net.table, net.shape.inputs_end, ANY, el, o);
    nth(
        net.table,
        net.shape.elements_end,
        net.shape.inputs(),
        ANY,
        el,
        k,
    )
}

// The output variable that belongs to input variable v.
pub fn partner_variable(ix: &IndexedNetwork, v: usize) -> Option<usize>
    requires { v < variables_of ix.now.net.shape }
    ensures { result ≡ found_of (partner_variable ix.now.net.table.now ix.now.net.shape v) }
{
    let u = ix.variable_partner(v);
    if u < ix.net.shape.variables() {
        Some(u)
    } else {
        None
    }
}
