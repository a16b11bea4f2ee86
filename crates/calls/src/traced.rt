// A run with its trace.
ghost use Rattle.rules_traces.specs.Public.{TracedCall};

use crate::open;
use calls_run::running::run_moves;
use rules_calls::Outcome;
use rules_traces::Traced;
use store_words::word::time;

// Makes moves until no move exists (1), else the next move's record has no room (3), else its frames have no room in the trace (4), else the budget is used (2).
pub fn run_traced(
    t: &[u8],
    store: &mut [u32],
    budget: u32,
    out: &mut [u8],
    trace: &mut [u8],
) -> Traced
    ensures { TracedCall t.now store.old budget out.old trace.old result store.new out.new trace.new }
{
    let net = match open(t, store) {
        Ok(net) => net,
        Err(refusal) => {
            return Traced {
                answer: Err(refusal),
                traced: 0,
            };
        }
    };
    let at = time(store);
    let r = run_moves(&net, store, at, budget, out, trace, true);
    Traced {
        answer: Ok(Outcome::Ran(r.moves, r.bytes, r.stop, r.untrue)),
        traced: r.traced,
    }
}
