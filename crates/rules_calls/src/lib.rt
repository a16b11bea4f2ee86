// The rules of the calls: types and definitions in specs/, laws about them in proofs/laws/. No code but what an answer tells.
#![tactic(auto)]

ghost use Rattle.std.specs.Prelude.{◌≡◌};
ghost use Rattle.rules_calls.specs.Answer.{number_of, frame_of, moves_of, bytes_of, stop_of, untrue_of};

use rules_tables::Refusal;

// What a call tells that is not refused.
#[derive(Clone, Copy, PartialEq, Eq, Debug)]
pub enum Outcome {
    // Load, advance and arrival have nothing else to tell.
    Done,
    // Run: the moves made, the bytes written, why it stopped (1, 2 or 3), and how many of its steps were untrue.
    Ran(u32, usize, u32, u32),
}

// What a call answers.
pub type Answer = Result<Outcome, Refusal>;

// What an answer tells: refusal number, frame, moves, bytes, stop number and untrue steps, each 0 where it has none.
pub trait Answered {
    fn number(self) -> usize;

    fn frame(self) -> usize;

    fn moves(self) -> u32;

    fn bytes(self) -> usize;

    fn stop(self) -> u32;

    fn untrue(self) -> u32;
}

impl Answered for Answer {
    fn number(self) -> usize
        ensures { result ≡ number_of self }
    {
        match self {
            Err(refusal) => refusal.number,
            Ok(_) => 0,
        }
    }

    fn frame(self) -> usize
        ensures { result ≡ frame_of self }
    {
        match self {
            Err(refusal) => refusal.frame,
            Ok(_) => 0,
        }
    }

    fn moves(self) -> u32
        ensures { result ≡ moves_of self }
    {
        match self {
            Ok(Outcome::Ran(moves, _, _, _)) => moves,
            _ => 0,
        }
    }

    fn bytes(self) -> usize
        ensures { result ≡ bytes_of self }
    {
        match self {
            Ok(Outcome::Ran(_, bytes, _, _)) => bytes,
            _ => 0,
        }
    }

    fn stop(self) -> u32
        ensures { result ≡ stop_of self }
    {
        match self {
            Ok(Outcome::Ran(_, _, stop, _)) => stop,
            _ => 0,
        }
    }

    fn untrue(self) -> u32
        ensures { result ≡ untrue_of self }
    {
        match self {
            Ok(Outcome::Ran(_, _, _, untrue)) => untrue,
            _ => 0,
        }
    }
}
