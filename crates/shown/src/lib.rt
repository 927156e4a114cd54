// Answers as text on standard output, for the programs that run examples. What is written is compared with stored text, not proved.
#![tactic(auto)]

use checked::Checked;
use loftsplice::listing::Listed;
use loftsplice::refusal::number;
use loftsplice::rle::{Emptiness, Got, Length, Placed};
use loftsplice::run_length_encodable::Difference;
use loftsplice::scan::{Carried, Moved, Position, Scan, State};
use meaning::{Answer, Refusal};

pub fn text(rt: &HostRuntime, s: &[u8]) {
    let _ = rt.write_all(s);
}

pub fn unsigned(rt: &HostRuntime, n: u64) {
    let mut digits = [0u8; 20];
    let count = io::decimal(n, &mut digits);
    text(rt, &digits[..count]);
}

// A number with its sign, by its key: 2^63 is 0.
pub fn signed(rt: &HostRuntime, x: i64) {
    let k = keys::bias(x);
    if k < 9223372036854775808 {
        text(rt, b"-");
        unsigned(rt, 9223372036854775808 - k);
    } else {
        unsigned(rt, k - 9223372036854775808);
    }
}

pub fn refused(rt: &HostRuntime, why: Refusal) {
    text(rt, b"refused ");
    unsigned(rt, number(why) as u64);
}

pub fn difference(rt: &HostRuntime, d: Difference) {
    match d {
        Difference::Step(step) => signed(rt, step as i64),
        Difference::None => text(rt, b"none"),
    }
}

pub fn checked(rt: &HostRuntime, c: Checked) {
    match c {
        Checked::Fine => text(rt, b"fine"),
        Checked::Refused(why) => refused(rt, why),
    }
}

pub fn length(rt: &HostRuntime, n: Length) {
    match n {
        Length::Is(k) => unsigned(rt, k),
        Length::Refused(why) => refused(rt, why),
    }
}

pub fn emptiness(rt: &HostRuntime, e: Emptiness) {
    match e {
        Emptiness::Empty => text(rt, b"empty"),
        Emptiness::Held => text(rt, b"not empty"),
        Emptiness::Refused(why) => refused(rt, why),
    }
}

pub fn placed(rt: &HostRuntime, p: Placed) {
    match p {
        Placed::At(at) => {
            text(rt, b"(");
            unsigned(rt, at.run as u64);
            text(rt, b",");
            unsigned(rt, at.offset);
            text(rt, b",");
            unsigned(rt, at.follows);
            text(rt, b")");
        }
        Placed::Refused(why) => refused(rt, why),
    }
}

pub fn got(rt: &HostRuntime, g: Got) {
    match g {
        Got::Value(v) => signed(rt, v),
        Got::Refused(why) => refused(rt, why),
    }
}

pub fn answer(rt: &HostRuntime, a: Answer) {
    match a {
        Answer::Value(v) => signed(rt, v),
        Answer::None => text(rt, b"none"),
        Answer::Refused(why) => refused(rt, why),
    }
}

pub fn position(rt: &HostRuntime, p: Position) {
    match p {
        Position::Index(i) => unsigned(rt, i),
        Position::None => text(rt, b"none"),
        Position::Refused(why) => refused(rt, why),
    }
}

fn state(rt: &HostRuntime, s: State) {
    match s {
        State::Fresh => text(rt, b"fresh"),
        State::At(i) => unsigned(rt, i),
        State::Ended => text(rt, b"ended"),
    }
}

// What a scan carries, if it carries a value.
fn carried(rt: &HostRuntime, c: Carried) {
    match c {
        Carried::Value(v) => {
            text(rt, b" (");
            signed(rt, v);
            text(rt, b")");
        }
        Carried::None => {}
    }
}

// A scan: its window, its state, and what it carries.
pub fn scan(rt: &HostRuntime, s: Scan) {
    let now = s.state;
    let value = s.value;
    text(rt, b" | ");
    unsigned(rt, s.start);
    text(rt, b"..");
    unsigned(rt, s.end);
    text(rt, b" ");
    state(rt, now);
    carried(rt, value);
    text(rt, b"\n");
}

// What a call answered, and the scan that it handed back.
pub fn told(rt: &HostRuntime, m: Moved) -> Scan {
    let a = m.answer;
    let s = m.scan;
    answer(rt, a);
    scan(rt, s);
    s
}

pub fn listed(rt: &HostRuntime, l: Listed) {
    match l {
        Listed::Sum(n) => unsigned(rt, n),
        Listed::Refused(why) => refused(rt, why),
    }
}

// What a place of the three arrays holds.
pub fn place(rt: &HostRuntime, start: i64, end: u64, step: i16) {
    text(rt, b" (");
    signed(rt, start);
    text(rt, b",");
    unsigned(rt, end);
    text(rt, b",");
    signed(rt, step as i64);
    text(rt, b")");
}

// All places of the three arrays, and a line end.
pub fn places(rt: &HostRuntime, starts: &[i64; 3], ends: &[u64; 3], steps: &[i16; 3]) {
    let mut i = 0;
    while i < 3 {
        place(rt, starts[i], ends[i], steps[i]);
        i += 1;
    }
    text(rt, b"\n");
}

// A byte in two digits.
fn byte(rt: &HostRuntime, value: u8) {
    let mut digits = [0u8; 16];
    let count = io::hex(value as u64, 2, &mut digits);
    text(rt, &digits[..count]);
}

// Bytes, each in two digits.
pub fn hex(rt: &HostRuntime, bytes: &[u8]) {
    let mut i = 0;
    while i < bytes.len() {
        text(rt, b" ");
        byte(rt, bytes[i]);
        i += 1;
    }
}
