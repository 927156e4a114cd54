// Steps at the limits, 4,096 runs and one more, and columns index by index.
use checked::check;
use loftsplice::rle::{get, is_empty, len, place};
use loftsplice::run_length_encodable::diff_step;
use shown::{text, unsigned};

fn step(rt: &HostRuntime, previous: i64, current: i64) {
    text(rt, b"step from ");
    shown::signed(rt, previous);
    text(rt, b" to ");
    shown::signed(rt, current);
    text(rt, b": ");
    shown::difference(rt, diff_step(previous, current));
    text(rt, b"\n");
}

fn limits(rt: &HostRuntime) {
    step(rt, 0, 32767);
    step(rt, 0, 32768);
    step(rt, 0, -32768);
    step(rt, 0, -32769);
    step(rt, 9223372036854775807, 9223372036854743039);
    step(rt, -9223372036854775808, 9223372036854775807);
    step(rt, 9223372036854775807, -9223372036854775808);
}

// 1, 2, 3 and so on.
fn counted() -> [u64; 4097] {
    let mut ends = [0u64; 4097];
    let mut i = 0;
    while i < 4097 {
        ends[i] = (i as u64) + 1;
        i += 1;
    }
    ends
}

// The check of the first n runs of a column that has as many.
fn first(rt: &HostRuntime, starts: &[i64], ends: &[u64], steps: &[i16], n: usize) {
    if n <= starts.len() {
        if n <= ends.len() {
            if n <= steps.len() {
                unsigned(rt, n as u64);
                text(rt, b" runs: ");
                shown::checked(rt, check(&starts[..n], &ends[..n], &steps[..n]));
                text(rt, b"\n");
            }
        }
    }
}

// 4,096 runs of one element each, and one more.
fn many(rt: &HostRuntime) {
    let starts = [7i64; 4097];
    let ends = counted();
    let steps = [1i16; 4097];
    first(rt, &starts, &ends, &steps, 4096);
    first(rt, &starts, &ends, &steps, 4097);
}

fn index(rt: &HostRuntime, starts: &[i64], ends: &[u64], steps: &[i16], i: u64) {
    unsigned(rt, i);
    text(rt, b" at ");
    shown::placed(rt, place(starts, ends, steps, i));
    text(rt, b" is ");
    shown::got(rt, get(starts, ends, steps, i));
    text(rt, b"\n");
}

fn whole(rt: &HostRuntime, starts: &[i64], ends: &[u64], steps: &[i16]) {
    text(rt, b"check ");
    shown::checked(rt, check(starts, ends, steps));
    text(rt, b", length ");
    shown::length(rt, len(starts, ends, steps));
    text(rt, b", ");
    shown::emptiness(rt, is_empty(starts, ends, steps));
    text(rt, b"\n");
}

// All that the column calls say of a column, up to an index past its end.
fn column(rt: &HostRuntime, starts: &[i64], ends: &[u64], steps: &[i16], upto: u64) {
    whole(rt, starts, ends, steps);
    let mut i = 0;
    while i < upto {
        index(rt, starts, ends, steps, i);
        i += 1;
    }
}

// A column of one run, by its start, end and step; one of two. (A function that is handed numbers is proved quicker than one that lends many arrays.)
fn one(rt: &HostRuntime, start: i64, end: u64, step: i16, upto: u64) {
    column(rt, &[start], &[end], &[step], upto);
}

fn two(rt: &HostRuntime, a: i64, b: i64, end: u64, last: u64, step: i16, other: i16, upto: u64) {
    column(rt, &[a, b], &[end, last], &[step, other], upto);
}

fn c(rt: &HostRuntime) {
    column(rt, &[10, 30, 31, 40], &[4, 5, 6, 9], &[5, 0, -3, 100], 11);
}

fn no_runs(rt: &HostRuntime) {
    column(rt, &[], &[], &[], 2);
}

fn more_starts(rt: &HostRuntime) {
    column(rt, &[1, 2], &[1], &[0], 1);
}

// Document 01's columns.
fn document(rt: &HostRuntime) {
    text(rt, b"C\n");
    c(rt);
    text(rt, b"D\n");
    two(rt, 10, 6, 2, 5, -5, 1, 7);
    text(rt, b"no runs\n");
    no_runs(rt);
}

// The last element is the greatest i64, or would lie beyond it; the longest column.
fn edge(rt: &HostRuntime) {
    text(rt, b"the edge\n");
    one(rt, 9223372036854775800, 8, 1, 9);
    one(rt, 9223372036854775800, 9, 1, 1);
    one(rt, -9223372036854775808, 4294967295, 32767, 3);
}

fn damaged(rt: &HostRuntime) {
    text(rt, b"damaged\n");
    more_starts(rt);
    two(rt, 1, 2, 5, 5, 0, 0, 1);
    one(rt, 1, 0, 0, 1);
    one(rt, 1, 4294967296, 0, 1);
    one(rt, -9223372036854775808, 2, -1, 1);
}

pub fn all(rt: &HostRuntime) {
    text(rt, b"== run_only\n");
    limits(rt);
    many(rt);
    document(rt);
    edge(rt);
    damaged(rt);
}
