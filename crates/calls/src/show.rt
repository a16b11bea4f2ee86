// The reader of a trace.
ghost use Rattle.rules_traces.specs.Public.{ShowCall};

use crate::open_any;
use calls_show::show::show_frames;
use rules_calls::Outcome;
use rules_traces::Shown;

// Shows the store's chart states and values after at most `frames` frames of the trace, as far as its lines can be read.
pub fn show(t: &[u8], store: &mut [u32], text: &[u8], frames: usize) -> Shown
    ensures { ShowCall t.now store.old text.now frames result store.new }
{
    let net = match open_any(t, store) {
        Ok(net) => net,
        Err(refusal) => {
            return Shown {
                answer: Err(refusal),
                shown: 0,
                line: 0,
            };
        }
    };
    let r = show_frames(&net, store, text, frames);
    Shown {
        answer: Ok(Outcome::Done),
        shown: r.shown,
        line: r.line,
    }
}
