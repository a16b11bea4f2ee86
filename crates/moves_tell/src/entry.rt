// What happens in a move, as a frame of the trace.
ghost use Rattle.std.specs.Prelude.{◌≡◌, ◌<◌};
ghost use Rattle.rules_traces.specs.Entry.{entry};
ghost use Rattle.rules_walks.specs.First.{one};
ghost use Rattle.rules_tables.specs.Ids.{outputs};
ghost use Rattle.rules_traces.specs.Trace.{emitted_entry};
ghost use Rattle.moves_tell.specs.Taped.{Taped, Space};

use crate::tape::Tape;
use rules_traces::{EMITTED_KIND, Entry};
use store_words::network::Network;
use table_frames::frame::field;

// A frame of kinds 4 to 8: it only says that something happened.
pub fn happened(kind: usize, block: usize, id: usize) -> Entry
    ensures { result ≡ entry kind block id 1 }
{
    Entry {
        kind,
        block,
        id,
        value: 1,
    }
}

// Event output o is emitted.
pub fn tell_emitted(net: &Network, o: usize, tape: &mut Tape)
    requires { (o < outputs net.now.shape) × Space (emitted_entry net.now.table.now net.now.shape (one o)) tape.old }
    ensures { Taped (emitted_entry net.now.table.now net.now.shape (one o)) tape.old tape.new }
{
    let el = field(net.table, net.output_frame(o), 0);
    tape.put(happened(EMITTED_KIND, el, o));
}
