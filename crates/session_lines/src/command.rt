// What a line after the table asks for.
ghost use Rattle.std.specs.Prelude.{◌≡◌, ◌<◌};
ghost use Rattle.rules_sessions.specs.Command.{long_at, last_clear, plain as «plain_at», advance_of, arrival_of, value_of, run_of, command_of, line_command};

use lines::line::{line_ok, put_frame};
use numbers::bytes::word_at;
use rules_sessions::Command;
use table_frames::frame::{field, flag, kind};

// The kinds of the lines after the table.
const ADVANCE: usize = 0x80;

const ARRIVAL: usize = 0x81;

const VALUE: usize = 0x82;

const RUN: usize = 0x83;

// Fields j and j + 1 as one number, high half first: they lie from 2 j + 2 on.
#[tactic(auto, unfolding(rules_sessions::specs::Command::long_at, rules_tables::specs::Frame::field_at, rules_numbers::specs::Bytes::word_at))]
fn long(frame: &[u8; 12], j: usize) -> u32
    requires { j < 4 }
    ensures { result ≡ long_at frame.now j }
{
    word_at(frame, 2 * j + 2)
}

// Fields d and e are zero.
#[tactic(auto, unfolding(rules_sessions::specs::Command::last_clear))]
fn last_clear(frame: &[u8; 12]) -> bool
    ensures { result ≡ last_clear frame.now }
{
    field(frame, 0, 3) == 0 && field(frame, 0, 4) == 0
}

// Flag and fields c, d and e are zero.
#[tactic(auto, unfolding(rules_sessions::specs::Command::plain))]
fn plain(frame: &[u8; 12]) -> bool
    ensures { result ≡ «plain_at» frame.now }
{
    flag(frame, 0) == 0 && field(frame, 0, 2) == 0 && last_clear(frame)
}

// 80 advance: a, b time.
#[tactic(auto, unfolding(rules_sessions::specs::Command::advance_of))]
fn advance_of(frame: &[u8; 12]) -> Command
    ensures { result ≡ advance_of frame.now }
{
    if plain(frame) {
        Command::Advance(long(frame, 0))
    } else {
        Command::Wrong
    }
}

// 81 arrival: flag number of values, a event, b, c birth.
#[tactic(auto, unfolding(rules_sessions::specs::Command::arrival_of))]
fn arrival_of(frame: &[u8; 12]) -> Command
    ensures { result ≡ arrival_of frame.now }
{
    if last_clear(frame) {
        Command::Arrival(flag(frame, 0), field(frame, 0, 0), long(frame, 1))
    } else {
        Command::Wrong
    }
}

// 82: b, c value.
#[tactic(auto, unfolding(rules_sessions::specs::Command::value_of))]
fn value_of(frame: &[u8; 12]) -> Command
    ensures { result ≡ value_of frame.now }
{
    if flag(frame, 0) == 0 && field(frame, 0, 0) == 0 && last_clear(frame) {
        Command::Value(long(frame, 1))
    } else {
        Command::Wrong
    }
}

// 83 run: a, b budget.
#[tactic(auto, unfolding(rules_sessions::specs::Command::run_of))]
fn run_of(frame: &[u8; 12]) -> Command
    ensures { result ≡ run_of frame.now }
{
    if plain(frame) {
        Command::Run(long(frame, 0))
    } else {
        Command::Wrong
    }
}

// What a frame asks for.
#[tactic(auto, unfolding(rules_sessions::specs::Command::command_of))]
fn command_of(frame: &[u8; 12]) -> Command
    ensures { result ≡ command_of frame.now }
{
    match kind(frame, 0) {
        ADVANCE => advance_of(frame),
        ARRIVAL => arrival_of(frame),
        VALUE => value_of(frame),
        RUN => run_of(frame),
        _ => Command::Wrong,
    }
}

// What a line asks for.
#[tactic(auto, unfolding(rules_sessions::specs::Command::line_command))]
pub fn line_command(line: &[u8]) -> Command
    ensures { result ≡ line_command line.now }
{
    if !line_ok(line) {
        return Command::Wrong;
    }
    let mut frame = [0u8; 12];
    put_frame(line, &mut frame, 0);
    command_of(&frame)
}
