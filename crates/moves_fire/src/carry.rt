// Which variables an event carries.
ghost use Rattle.std.specs.Prelude.{◌≡◌, true, ◌<◌};
ghost use Rattle.rules_tables.specs.Ids.{outputs, associations as «associations_of»};
ghost use Rattle.rules_moves.specs.Carry.{voice_of, speaks, carried_by};

use crate::partner::{partner_input, partner_variable};
use rules_moves::Voice;
use store_words::network::Network;
use table_frames::frame::{field, flag};
use table_frames::kind::{INTERFACE, NONE, OF_INPUT, OF_OUTPUT};
use table_index::indexed::IndexedNetwork;

// No association has this flag.
const NO_VOICE: Voice = Voice { flag: 2, event: 0 };

// An event output speaks by its own associations, an interface's by the input associations of its partner event.
pub fn voice_of(net: &Network, o: usize) -> Voice
    requires { o < outputs net.now.shape }
    ensures { result ≡ voice_of net.now.table.now net.now.shape o }
{
    if flag(net.table, field(net.table, net.output_frame(o), 0)) != INTERFACE {
        return Voice {
            flag: OF_OUTPUT,
            event: o,
        };
    }
    let Some(i) = partner_input(net, o) else {
        return NO_VOICE;
    };
    Voice {
        flag: OF_INPUT,
        event: i,
    }
}

// The variable that association j, which speaks for the event, has it carry, or NONE. The definition has that number too, and no data connection starts there.
pub fn carried_by(ix: &IndexedNetwork, w: Voice, j: usize) -> usize
    requires { (j < associations_of ix.now.net.shape) × (speaks ix.now.net.table.now ix.now.net.shape w j ≡ true) }
    ensures { result ≡ carried_by ix.now.net.table.now ix.now.net.shape w j }
{
    let v = field(ix.net.table, ix.net.association_frame(j), 1);
    if w.flag == OF_OUTPUT {
        return v;
    }
    let Some(u) = partner_variable(ix, v) else {
        return NONE;
    };
    u
}
