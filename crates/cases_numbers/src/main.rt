// Runs on the code the cases that specs/Cases.antt has for the definitions.
#![tactic(auto)]

ghost use Rattle.std.specs.Prelude.{◌≡◌, ◌<◌, get_or};
ghost use Rattle.cases_numbers.specs.Rows.{rows, none, answers, answered};

// What is asked (0 an operation, 1 a DT's ticks), the operation's number, two words, the age, what must come out, and 1 where that is the true one.
// Its columns stay numbered: a row is a line of the table below, and with names it would be nine.
#[derive(Clone, Copy)]
pub struct Row(
    pub usize,
    pub usize,
    pub u32,
    pub u32,
    pub u32,
    pub u32,
    pub u32,
);

// What comes out: a word, and 1 where it is the true one, else 0.
#[derive(Clone, Copy)]
pub struct Told(pub u32, pub u32);

const ROWS: [Row; 26] = [
    Row(0, 3, 0x8000_0000, 0, 0, 0x7fff_ffff, 0),
    Row(0, 5, 0x8000_0000, 0xffff_ffff, 0, 0x7fff_ffff, 0),
    Row(0, 5, 0xffff_fff9, 2, 0, 0xffff_fffd, 1),
    Row(0, 5, 7, 0xffff_fffe, 0, 0xffff_fffd, 1),
    Row(0, 5, 0xffff_fff9, 0xffff_fffe, 0, 3, 1),
    Row(0, 5, 0xffff_fff9, 0, 0, 0, 0),
    Row(0, 0, 0x8000_0000, 5, 9, 0x8000_0000, 1),
    Row(0, 1, 0x7fff_ffff, 1, 0, 0x7fff_ffff, 0),
    Row(0, 1, 0x8000_0000, 0xffff_ffff, 0, 0x8000_0000, 0),
    Row(0, 1, 0x7fff_ffff, 0x8000_0000, 0, 0xffff_ffff, 1),
    Row(0, 2, 0x8000_0000, 1, 0, 0x8000_0000, 0),
    Row(0, 2, 3, 5, 0, 0xffff_fffe, 1),
    Row(0, 3, 0x7fff_ffff, 0, 0, 0x8000_0001, 1),
    Row(0, 4, 0x8000_0000, 0x7fff_ffff, 0, 0x8000_0000, 0),
    Row(0, 4, 0x8000_0000, 0x8000_0000, 0, 0x7fff_ffff, 0),
    Row(0, 4, 46340, 0xffff_4afc, 0, 0x8001_57f0, 1),
    Row(0, 4, 46341, 0xffff_4afb, 0, 0x8000_0000, 0),
    Row(0, 6, 0xffff_ffff, 1, 0, 0xffff_ffff, 1),
    Row(0, 7, 0xffff_ffff, 1, 0, 1, 1),
    Row(0, 8, 0xffff_ffff, 1, 9, 9, 1),
    Row(0, 1, 0x7fff_fffe, 1, 0, 0x7fff_ffff, 1),
    Row(0, 2, 0x8000_0001, 1, 0, 0x8000_0000, 1),
    Row(0, 5, 0x8000_0000, 1, 0, 0x8000_0000, 1),
    Row(0, 5, 0, 0, 0, 0, 0),
    Row(1, 0, 50, 0, 0, 50, 1),
    Row(1, 0, 0xffff_ffff, 0, 0, 0, 1),
];

fn main() {
    for i in 0..26 {
        let row = row_at(i);
        let told = answer(row);
        check::expect(told.0 == row.5);
        check::expect(told.1 == row.6);
    }
    bytes();
}

// Case i, as the definitions have it.
fn row_at(i: usize) -> Row
    requires { i < 26 }
    ensures { result ≡ get_or rows i none }
{
    ROWS[i]
}

// What an operation tells, in words.
fn operated(op: usize, b: u32, c: u32, age: u32) -> Told
    requires { age < 2147483648 }
    ensures { result ≡ answers 0 op b c age }
{
    let told = numbers::operation::outcome_words(op, b, c, age);
    Told(numbers::word::to_word(told.result), u32::from(told.is_true))
}

// The code's answer to a case.
fn answer(row: Row) -> Told
    requires { row.4 < 2147483648 }
    ensures { result ≡ answered row }
{
    match row.0 {
        0 => operated(row.1, row.2, row.3, row.4),
        _ => Told(numbers::word::ticks(row.2), 1),
    }
}

// A number that is written stands high byte first, and is read again.
fn bytes() {
    let mut b = [9u8; 6];
    numbers::bytes::put_word(&mut b, 1, 0x0102_0304);
    let want = [9u8, 1, 2, 3, 4, 9];
    check::expect(check::same(&b, &want));
    check::expect(numbers::bytes::word_at(&b, 1) == 0x0102_0304);
}
