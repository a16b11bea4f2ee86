// The operations by their number.
ghost use Rattle.std.specs.Prelude.{◌≡◌, ◌<◌, pos};
ghost use Rattle.rules_numbers.specs.Word.{signed, word};
ghost use Rattle.rules_numbers.specs.Truth.{outcome};

use crate::clip;
use crate::word::{to_signed, to_word};
use rules_numbers::Outcome;

// What operation `op` tells: its result, and whether that is the true one. The table check lets no number above 8 through.
// Stays a match over numbers: a step of the table has the number, and each arm is a line.
#[tactic(auto, unfolding(rules_numbers::specs::Truth::outcome, rules_numbers::specs::Truth::true_value, rules_numbers::specs::Operation::operation))]
pub fn operate(op: usize, b: i32, c: i32, age: i32) -> Outcome
    ensures { result ≡ outcome op b c age }
{
    match op {
        0 => clip::exact(b), // copy b
        1 => clip::add(b, c), // add
        2 => clip::subtract(b, c), // subtract c from b
        3 => clip::negate(b), // negate b
        4 => clip::multiply(b, c), // multiply
        5 => clip::divide(b, c), // divide b by c toward zero
        6 => clip::exact(clip::minimum(b, c)), // minimum
        7 => clip::exact(clip::maximum(b, c)), // maximum
        8 => clip::exact(age), // age
        _ => clip::untrue(0),
    }
}

// The same on store words; the age is in ticks. The cast of the age loses nothing, as is proved; `try_from` would have an error that cannot come.
pub fn outcome_words(op: usize, b: u32, c: u32, age: u32) -> Outcome
    requires { age < 2147483648 }
    ensures { result ≡ outcome op (signed b) (signed c) (pos age) }
{
    operate(op, to_signed(b), to_signed(c), age as i32)
}

// The result alone, as a store word.
pub fn operate_words(op: usize, b: u32, c: u32, age: u32) -> u32
    requires { age < 2147483648 }
    ensures { result ≡ word (outcome op (signed b) (signed c) (pos age)).result }
{
    let told = outcome_words(op, b, c, age);
    to_word(told.result)
}
