// Runs the definition cases (crate `cases`) through the public calls, and says of each whether it comes out right.
#![tactic(auto)]

use data::Six;

mod ask;
mod data;

fn say(rt: &impl Print, words: &[u8]) {
    let _ = rt.write_all(words);
}

// What each case is about, in the order of the rows.
const TITLES: [&str; 38] = [
    "the session: load",
    "the session: advance to 10",
    "the session: arrival",
    "the session: run",
    "the session: its record",
    "load at 38 words",
    "load at 39 words",
    "run with budget 8",
    "run with budget 9",
    "run with an output of 19 bytes",
    "arrival born at 11, now 10",
    "arrival born at 10, now 10",
    "load with the last frame twice",
    "DT 50 taken at 100: due",
    "advance to 150",
    "advance to 151",
    "a second START at 120: due",
    "and advance to 151",
    "a START at 150, after the output: due",
    "a START at 160, after a STOP: due",
    "-2147483648 negated",
    "-2147483648 divided by -1",
    "-7 divided by 2",
    "2147483647 + 1",
    "2147483646 + 1",
    "0 divided by 0",
    "run with an untrue step",
    "word 11 after it, from 0",
    "word 11 after it, from 4294967294",
    "word 11 after it, from 4294967295",
    "no delay: next due",
    "two delays, started at 100 and 120: next due",
    "the earlier stopped: next due",
    "and started again, two due at one time: next due",
    "advance to 171",
    "advance to 170, both fired: next due",
    "due at 0, now 0: next due",
    "advance to 0: next due",
];

fn number(rt: &impl Print, n: u64) {
    say(rt, b" ");
    let _ = rt.print(n);
}

// Prints a case with the numbers that came out.
fn tell(rt: &impl Print, title: &str, out: Six, right: bool) {
    if right {
        say(rt, b"right ");
    } else {
        say(rt, b"wrong ");
    }
    number(rt, out.0);
    number(rt, out.1);
    number(rt, out.2);
    number(rt, out.3);
    number(rt, out.4);
    number(rt, out.5);
    say(rt, b"  ");
    let _ = rt.println(title);
}

fn main(rt: HostRuntime) {
    let mut points = 0u64;
    for (i, &title) in TITLES.iter().enumerate() {
        let row = data::row_at(i);
        let want = Six(row.9, row.10, row.11, row.12, row.13, row.14);
        let out = ask::outcome(row);
        let right = out == want;
        tell(&rt, title, out, right);
        points += u64::from(right);
    }
    let _ = rt.print(points);
    say(&rt, b" of 38 cases right\n");
}
