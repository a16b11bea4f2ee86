// What a line of a session asks for, before the session takes it.
ghost use Rattle.std.specs.Prelude.{◌≡◌, List, ℕ, ◌+◌, ◌≤◌, length};
ghost use Rattle.rules_sessions.specs.Command.{line_command};
ghost use Rattle.rules_sessions.specs.Session.{Stage};
ghost use Rattle.session_dialogue.specs.Standing.{Stands};
ghost use Rattle.session_watch.specs.Asked.{is_table, opened_stage, asked_by, asked_in};

use lines::line::opens;
use rules_sessions::Command;
use session_dialogue::session::{Phase, Session};
use session_dialogue::told::tell_load;
use session_lines::command::line_command;

// The table still comes.
fn in_table(s: Session) -> bool
    ensures { result ≡ is_table s.phase }
{
    matches!(s.phase, Phase::Table)
}

// The session that the line is judged in: the first line beginning 80 to 83 loads the table first. It is made on a copy of the store; the text is thrown away.
pub fn opened(t: &[u8], copy: &mut [u32], line: &[u8], text: &mut [u8], s: Session) -> Session
    requires { s.at + 25 ≤ length text.old }
    ensures { (g : Stage) (W : List ℕ) → Stands g s t.now copy.old W
        → Stands (opened_stage g line.now) result t.now copy.new W }
{
    if !in_table(s) {
        return s;
    }
    if !opens(line) {
        return s;
    }
    tell_load(t, copy, text, s)
}

// The budget of a run, where the command is one.
fn asked_by(c: Command) -> Option<u32>
    ensures { result ≡ asked_by c }
{
    match c {
        Command::Run(budget) => Some(budget),
        Command::Wrong | Command::Advance(_) | Command::Arrival(..) | Command::Value(_) => None,
    }
}

// The budget of the run that the line asks for there, if it asks for one: only where a call is expected.
pub fn line_asks(line: &[u8], s: Session) -> Option<u32>
    ensures { result ≡ asked_in s.phase (line_command line.now) }
{
    match s.phase {
        Phase::Calls => asked_by(line_command(line)),
        Phase::Table | Phase::Values(_) | Phase::Stopped => None,
    }
}
