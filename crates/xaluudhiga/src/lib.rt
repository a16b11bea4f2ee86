// The calls for hosts in C (include/xaluudhiga.h): a slice is passed as a pointer and then a length.
#![tactic(auto)]

ghost use Rattle.std.specs.Prelude.{◌≡◌};
ghost use Rattle.rules_tables.specs.Judge.{judged};
ghost use Rattle.rules_tables.specs.View.{kind_span, step_span};
ghost use Rattle.rules_calls.specs.Answer.{refused_of};
ghost use Rattle.rules_calls.specs.Compact.{Compact};
ghost use Rattle.rules_calls.specs.Exports.{packed, LoadTold, AdvanceTold, ArrivalTold, RunTold, Lies, need_or0};
ghost use Rattle.rules_traces.specs.Public.{TracedTold, ShowTold};

use rules_calls::{Answer, Answered};
use store_words::shape::need;
use table_views::{kind_span, step_span};

// Refusal number and frame as one number, number * 65536 + frame: 0 where nothing was refused.
fn pack(answer: Answer) -> u64
    requires { Compact answer }
    ensures { result ≡ packed answer }
{
    answer.number() as u64 * 65536 + answer.frame() as u64
}

// The verdict on a table.
#[unsafe(no_mangle)]
pub extern "C" fn xal_check(table: &[u8]) -> u64
    ensures { result ≡ packed (refused_of (judged table.now)) }
{
    pack(calls::refused(table_check::check(table)))
}

// The words that a store must have for this table; 0 for a table that is refused.
#[unsafe(no_mangle)]
pub extern "C" fn xal_need(table: &[u8]) -> usize
    ensures { result ≡ need_or0 table.now }
{
    let judged = table_check::check(table);
    let Ok(s) = judged else {
        return 0;
    };
    need(s)
}

// `load`.
#[unsafe(no_mangle)]
pub extern "C" fn xal_load(table: &[u8], store: &mut [u32]) -> u64
    ensures { LoadTold table.now store.old result store.new }
{
    pack(calls::load(table, store))
}

// `advance`.
#[unsafe(no_mangle)]
pub extern "C" fn xal_advance(table: &[u8], store: &mut [u32], to: u32) -> u64
    ensures { AdvanceTold table.now store.old to result store.new }
{
    pack(calls::advance(table, store, to))
}

// `arrival`.
#[unsafe(no_mangle)]
pub extern "C" fn xal_arrival(
    table: &[u8],
    store: &mut [u32],
    event: usize,
    birth: u32,
    values: &[u32],
) -> u64
    ensures { ArrivalTold table.now store.old event birth values.now result store.new }
{
    pack(calls::arrival(table, store, event, birth, values))
}

// `run`; moves, stop number, bytes and untrue steps are handed out through pointers, all 0 where the call is refused.
#[unsafe(no_mangle)]
pub extern "C" fn xal_run(
    table: &[u8],
    store: &mut [u32],
    budget: u32,
    out: &mut [u8],
    moves: &mut u32,
    stop: &mut u32,
    bytes: &mut usize,
    untrue: &mut u32,
) -> u64
    ensures { RunTold table.now store.old budget out.old result moves.new stop.new bytes.new untrue.new store.new out.new }
{
    let answer = calls::run(table, store, budget, out);
    *moves = answer.moves();
    *stop = answer.stop();
    *bytes = answer.bytes();
    *untrue = answer.untrue();
    pack(answer)
}

// `run_traced`; moves, stop number, bytes, trace bytes and untrue steps are handed out through pointers, all 0 where the call is refused.
#[unsafe(no_mangle)]
pub extern "C" fn xal_run_traced(
    table: &[u8],
    store: &mut [u32],
    budget: u32,
    out: &mut [u8],
    trace: &mut [u8],
    moves: &mut u32,
    stop: &mut u32,
    bytes: &mut usize,
    traced: &mut usize,
    untrue: &mut u32,
) -> u64
    ensures { TracedTold table.now store.old budget out.old trace.old result moves.new stop.new bytes.new traced.new untrue.new store.new out.new trace.new }
{
    let told = calls::traced::run_traced(table, store, budget, out, trace);
    *traced = told.traced;
    let ran = told.answer;
    *moves = ran.moves();
    *stop = ran.stop();
    *bytes = ran.bytes();
    *untrue = ran.untrue();
    pack(ran)
}

// `show`; the frames read and the line that ended the reading are handed out through pointers, both 0 where the call is refused.
#[unsafe(no_mangle)]
pub extern "C" fn xal_show(
    table: &[u8],
    store: &mut [u32],
    text: &[u8],
    frames: usize,
    shown: &mut usize,
    line: &mut usize,
) -> u64
    ensures { ShowTold table.now store.old text.now frames result shown.new line.new store.new }
{
    let told = calls::show::show(table, store, text, frames);
    *shown = told.shown;
    *line = told.line;
    let answer = told.answer;
    pack(answer)
}

// The frames of a kind: the length of their stretch of the table in bytes, and where it starts.
#[unsafe(no_mangle)]
pub extern "C" fn xal_frames_of(table: &[u8], kind: usize, start: &mut usize) -> usize
    ensures { Lies (kind_span table.now kind) start.new result }
{
    let frames = kind_span(table, kind);
    *start = 12 * frames.first;
    12 * frames.count
}

// The steps of an action, likewise.
#[unsafe(no_mangle)]
pub extern "C" fn xal_steps_of(table: &[u8], action: usize, start: &mut usize) -> usize
    ensures { Lies (step_span table.now action) start.new result }
{
    let steps = step_span(table, action);
    *start = 12 * steps.first;
    12 * steps.count
}
