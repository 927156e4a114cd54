// Records read: whole, cut after each byte, damaged, into too little room. What is read stands in arrays whose places hold 7 before, and all of
// each is shown.
ghost use Rattle.std.specs.Prelude.{◌≤◌};

use record::{ReadRecord, read};
use shown::{places, text, unsigned};

pub(crate) fn found(rt: &HostRuntime, r: ReadRecord) {
    match r {
        ReadRecord::Runs(n, used) => {
            unsigned(rt, n as u64);
            text(rt, b" runs, ");
            unsigned(rt, used as u64);
            text(rt, b" bytes used");
        }
        ReadRecord::Refused(why) => shown::refused(rt, why),
    }
}

// A record read into arrays of so many places, of the three that there are.
pub(crate) fn reading(rt: &HostRuntime, bytes: &[u8], a: usize, b: usize, c: usize)
    requires { (a ≤ 3) × (b ≤ 3) × (c ≤ 3) }
{
    let mut starts = [7i64; 3];
    let mut ends = [7u64; 3];
    let mut steps = [7i16; 3];
    found(
        rt,
        read(bytes, &mut starts[..a], &mut ends[..b], &mut steps[..c]),
    );
    places(rt, &starts, &ends, &steps);
}

// A record cut after each of its bytes.
fn cuts(rt: &HostRuntime, bytes: &[u8]) {
    let mut k = 0;
    while k < bytes.len() {
        text(rt, b"cut after ");
        unsigned(rt, k as u64);
        text(rt, b": ");
        reading(rt, &bytes[..k], 3, 3, 3);
        k += 1;
    }
}

// The record of one run (10,-5,2): with room for it, with too little, and cut.
pub(crate) fn one_run(rt: &HostRuntime, bytes: &[u8]) {
    reading(rt, bytes, 3, 3, 3);
    reading(rt, bytes, 1, 1, 1);
    reading(rt, bytes, 0, 3, 3);
    reading(rt, bytes, 3, 0, 3);
    reading(rt, bytes, 3, 3, 0);
    cuts(rt, bytes);
}

// A length by its first, second and fourth byte, a kind and one byte more.
fn head(rt: &HostRuntime, low: u8, second: u8, high: u8, kind: u8, more: u8) {
    reading(rt, &[low, second, 0, high, kind, 0, more], 3, 3, 3);
}

// 13, 11 and 12, and which of them comes first.
pub(crate) fn heads(rt: &HostRuntime) {
    text(rt, b"length 1: ");
    head(rt, 1, 0, 0, 1, 0);
    text(rt, b"length 2, bytes after it: ");
    head(rt, 2, 0, 0, 1, 9);
    text(rt, b"length 3: ");
    head(rt, 3, 0, 0, 1, 0);
    text(rt, b"length 3, kind 2: ");
    head(rt, 3, 0, 0, 2, 0);
    text(rt, b"length 57346, cut: ");
    head(rt, 2, 224, 0, 1, 0);
    text(rt, b"length 57347, cut: ");
    head(rt, 3, 224, 0, 1, 0);
    text(rt, b"length 16777218, cut: ");
    head(rt, 2, 0, 1, 1, 0);
}

// A record of one run (10,-5) of this length, of this kind, with this room for its step.
fn kept(rt: &HostRuntime, kind: u8, high: u8, length: u8, room: usize)
    requires { room ≤ 3 }
{
    reading(
        rt,
        &[
            16, 0, 0, 0, kind, high, 10, 0, 0, 0, 0, 0, 0, 0, 251, 255, length, 0, 0, 0,
        ],
        3,
        3,
        room,
    );
}

// 12; 2 after 10.
pub(crate) fn kinds(rt: &HostRuntime) {
    text(rt, b"kind 2: ");
    kept(rt, 2, 0, 2, 3);
    text(rt, b"kind 257: ");
    kept(rt, 1, 1, 2, 3);
    text(rt, b"run length 0: ");
    kept(rt, 1, 0, 0, 3);
    text(rt, b"run length 0, no room: ");
    kept(rt, 1, 0, 0, 0);
}

// 2 before 3, each over the whole record.
pub(crate) fn reaches(rt: &HostRuntime) {
    text(rt, b"run lengths 4294967295 and 1: ");
    reading(
        rt,
        b"\x1E\0\0\0\x01\0\0\0\0\0\0\0\0\0\0\0\xFF\xFF\xFF\xFF\0\0\0\0\0\0\0\x80\xFF\xFF\x01\0\0\0",
        3,
        3,
        3,
    );
    text(rt, b"out of reach, then run length 0: ");
    reading(
        rt,
        b"\x1E\0\0\0\x01\0\0\0\0\0\0\0\0\x80\xFF\xFF\x02\0\0\0\0\0\0\0\0\0\0\0\0\0\0\0\0\0",
        3,
        3,
        3,
    );
    text(rt, b"out of reach: ");
    reading(
        rt,
        b"\x1E\0\0\0\x01\0\0\0\0\0\0\0\0\x80\xFF\xFF\x02\0\0\0\0\0\0\0\0\0\0\0\0\0\x01\0\0\0",
        3,
        3,
        3,
    );
}
