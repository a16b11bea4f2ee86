// The calls of the step program, and what they print.
ghost use Rattle.std.specs.Prelude.{◌≡◌, ℕ, ◌+◌, ◌*◌, ◌<◌, ◌≤◌, List, ◌++◌, length, take, set};
ghost use Rattle.std.proofs.lemmas.List.Edits.{sets};
ghost use Rattle.rules_calls.specs.Answer.{bytes_of};
ghost use Rattle.rules_tables.specs.Judge.{judged};
ghost use Rattle.rules_sessions.specs.AnswerLine.{answer_line};
ghost use Rattle.rules_sessions.specs.Command.{line_command};
ghost use Rattle.rules_sessions.specs.RecordLines.{records_by};
ghost use Rattle.rules_sessions.specs.Session.{malformed as «malformed_deed», load_deed, advance_deed, arrival_deed, run_deed, arrival_by, call_by, value_by};
ghost use Rattle.session_dialogue.specs.Standing.{phase_after, one_more, Tabled, Came, Took, Calm};
ghost use Rattle.lines.specs.Printed.{Printed};

use crate::part::one_more;
use crate::session::{Arriving, Phase, Session};
use calls::{advance, arrival, load, run};
use lines::part::{put_at, stretch};
use rules_calls::{Answer, Answered};
use rules_sessions::Command;
use session_lines::answer::{put_answer, put_malformed};
use session_lines::command::line_command;
use session_lines::record::put_records;

// The output buffer has 4,096 bytes.
const OUTPUT: usize = 4096;

// A line of any other form or place: C0FF and twenty zeros, and the program stops.
pub fn malformed(text: &mut [u8], s: Session) -> Session
    requires { s.at + 25 ≤ length text.old }
    ensures { ((t st W : List ℕ) → Took «malformed_deed» s result t st W text.old text.new) × Calm 25 s result }
{
    let at = put_malformed(text, s.at);
    s.told(Phase::Stopped, at)
}

// What comes after a load: calls, unless it was refused.
fn after_load(a: Answer) -> Phase
    ensures { result ≡ phase_after a }
{
    match a {
        Err(_) => Phase::Stopped,
        Ok(_) => Phase::Calls,
    }
}

// The line of a call's answer, and what comes after it.
fn tell(a: Answer, phase: Phase, text: &mut [u8], s: Session) -> Session
    requires { s.at + 25 ≤ length text.old }
    ensures { ((result.phase ≡ phase) × (result.end ≡ s.end) × (result.length ≡ s.length) × (result.at ≡ s.at + 25))
        × (text.new ≡ sets text.old s.at (answer_line a)) }
{
    let at = put_answer(text, s.at, a);
    s.told(phase, at)
}

// The table is loaded.
pub fn tell_load(t: &[u8], store: &mut [u32], text: &mut [u8], s: Session) -> Session
    requires { s.at + 25 ≤ length text.old }
    ensures { ((T W : List ℕ) → Tabled T s.end t.now → 255 ≤ length W → Took (load_deed T store.old) s result t.now store.new W text.old text.new)
        × Calm 25 s result }
{
    let a = load(stretch(t, s.end), store);
    tell(a, after_load(a), text, s)
}

// 80.
fn tell_advance(t: &[u8], store: &mut [u32], to: u32, text: &mut [u8], s: Session) -> Session
    requires { s.at + 25 ≤ length text.old }
    ensures { ((W : List ℕ) → 255 ≤ length W → Took (advance_deed (take s.end t.now) store.old to) s result t.now store.new W text.old text.new)
        × Calm 25 s result }
{
    let a = advance(stretch(t, s.end), store, to);
    tell(a, Phase::Calls, text, s)
}

// 81 with all its values, the first of `values`.
fn tell_arrival(
    t: &[u8],
    store: &mut [u32],
    values: &[u32],
    a: Arriving,
    text: &mut [u8],
    s: Session,
) -> Session
    requires { s.at + 25 ≤ length text.old }
    ensures { (255 ≤ length values.now
        → Took (arrival_deed (take s.end t.now) store.old a.event a.birth (take a.number values.now)) s result t.now store.new values.now text.old text.new)
        × Calm 25 s result }
{
    let answer = arrival(
        stretch(t, s.end),
        store,
        a.event,
        a.birth,
        stretch(values, a.number),
    );
    tell(answer, Phase::Calls, text, s)
}

// A run's records and then its answer.
fn put_run(t: &[u8], out: &[u8], a: Answer, text: &mut [u8], at: usize) -> usize
    requires { at + 3 * length out.now + 25 ≤ length text.old }
    ensures { Printed (records_by (judged t.now) t.now (take (bytes_of a) out.now) ++ answer_line a) at (at + 3 * length out.now + 25) result text.old text.new }
{
    let from = put_records(t, stretch(out, a.bytes()), text, at);
    put_answer(text, from, a)
}

// 83. The output buffer is cleared before each run.
fn tell_run(t: &[u8], store: &mut [u32], budget: u32, text: &mut [u8], s: Session) -> Session
    requires { s.at + 12313 ≤ length text.old }
    ensures { ((W : List ℕ) → 255 ≤ length W → Took (run_deed (take s.end t.now) store.old budget) s result t.now store.new W text.old text.new)
        × Calm 12313 s result }
{
    let table = stretch(t, s.end);
    let mut out = [0u8; OUTPUT];
    let a = run(table, store, budget, &mut out);
    let at = put_run(table, &out, a, text, s.at);
    s.told(Phase::Calls, at)
}

// An arrival is made when all its values have come; until then it waits.
fn await_values(
    t: &[u8],
    store: &mut [u32],
    values: &[u32],
    a: Arriving,
    text: &mut [u8],
    s: Session,
) -> Session
    requires { s.at + 25 ≤ length text.old }
    ensures { ((vs : List ℕ) → Came vs a.number a.got values.now
        → Took (arrival_by (take s.end t.now) store.old a.number a.event a.birth vs) s result t.now store.new values.now text.old text.new)
        × Calm 25 s result }
{
    if a.got == a.number {
        return tell_arrival(t, store, values, a, text, s);
    }
    s.told(Phase::Values(a), s.at)
}

// A line read as a call.
pub fn call_line(
    t: &[u8],
    store: &mut [u32],
    values: &[u32],
    line: &[u8],
    text: &mut [u8],
    s: Session,
) -> Session
    requires { s.at + 12313 ≤ length text.old }
    ensures { (255 ≤ length values.now
        → Took (call_by (take s.end t.now) store.old (line_command line.now)) s result t.now store.new values.now text.old text.new)
        × Calm 12313 s result }
{
    match line_command(line) {
        Command::Wrong | Command::Value(_) => malformed(text, s),
        Command::Advance(to) => tell_advance(t, store, to, text, s),
        Command::Arrival(number, event, birth) => {
            let a = Arriving {
                number,
                event,
                birth,
                got: 0,
            };
            await_values(t, store, values, a, text, s)
        }
        Command::Run(budget) => tell_run(t, store, budget, text, s),
    }
}

// One value more of an arrival.
fn got_value(
    t: &[u8],
    store: &mut [u32],
    values: &mut [u32],
    v: u32,
    a: Arriving,
    text: &mut [u8],
    s: Session,
) -> Session
    requires { s.at + 25 ≤ length text.old }
    ensures { ((vs : List ℕ) → Came vs a.number (one_more a.got a.number) (set values.old a.got v)
        → Took (arrival_by (take s.end t.now) store.old a.number a.event a.birth vs) s result t.now store.new values.new text.old text.new)
        × Calm 25 s result }
{
    put_at(values, a.got, v);
    let got = one_more(a.got, a.number);
    await_values(t, store, values, Arriving { got, ..a }, text, s)
}

// A line read as a value.
pub fn value_line(
    t: &[u8],
    store: &mut [u32],
    values: &mut [u32],
    line: &[u8],
    a: Arriving,
    text: &mut [u8],
    s: Session,
) -> Session
    requires { s.at + 25 ≤ length text.old }
    ensures { ((vs : List ℕ) → Came vs a.number a.got values.old → a.got < a.number
        → Took (value_by (take s.end t.now) store.old a.number a.event a.birth vs (line_command line.now)) s result t.now store.new values.new text.old text.new)
        × Calm 25 s result }
{
    let Command::Value(v) = line_command(line) else {
        return malformed(text, s);
    };
    got_value(t, store, values, v, a, text, s)
}
