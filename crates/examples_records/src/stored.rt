// Document 01's stored example, written, read and written back; columns that are not written; the empty record and the largest. What is written
// stands in bytes that are EE before, and all of it is shown.
use crate::reading::*;
use record::{Written, read, write};
use shown::{hex, place, text, unsigned};

fn wrote(rt: &HostRuntime, w: Written) {
    match w {
        Written::Bytes(n) => {
            unsigned(rt, n as u64);
            text(rt, b" bytes");
        }
        Written::Refused(why) => shown::refused(rt, why),
    }
}

// The record of column D, into arrays that differ in length, and back; bytes follow it.
fn two_runs(rt: &HostRuntime, bytes: &[u8]) {
    reading(rt, bytes, 2, 3, 2);
    reading(rt, bytes, 3, 2, 3);
    reading(rt, bytes, 1, 2, 3);
    back(rt, bytes);
}

// 1, 2, 3 and so on.
fn counted() -> [u64; 4096] {
    let mut ends = [0u64; 4096];
    let mut i = 0;
    while i < 4096 {
        ends[i] = (i as u64) + 1;
        i += 1;
    }
    ends
}

fn writing(rt: &HostRuntime, starts: &[i64], ends: &[u64], steps: &[i16], out: &mut [u8]) {
    wrote(rt, write(starts, ends, steps, out));
    hex(rt, out);
    text(rt, b"\n");
}

// A column written into so many bytes, of the 36 that there are at most.
fn sized(rt: &HostRuntime, starts: &[i64], ends: &[u64], steps: &[i16], room: usize) {
    let mut out = [238u8; 36];
    if room <= 36 {
        writing(rt, starts, ends, steps, &mut out[..room]);
    }
}

// A column of one run, by its start, end and step.
fn one(rt: &HostRuntime, start: i64, end: u64, step: i16, room: usize) {
    sized(rt, &[start], &[end], &[step], room);
}

fn no_runs(rt: &HostRuntime) {
    sized(rt, &[], &[], &[], 8);
}

fn more_starts(rt: &HostRuntime) {
    sized(rt, &[1, 2], &[1], &[0], 4);
}

fn written(rt: &HostRuntime) {
    text(rt, b"one run (10,-5,2): ");
    one(rt, 10, 2, -5, 24);
    one(rt, 10, 2, -5, 20);
    one(rt, 10, 2, -5, 19);
    text(rt, b"no runs: ");
    no_runs(rt);
}

fn longest(rt: &HostRuntime) {
    text(rt, b"4097 runs, each of which ends at 1: ");
    writing(
        rt,
        &[0i64; 4097],
        &[1u64; 4097],
        &[0i16; 4097],
        &mut [238u8; 4],
    );
}

fn not_written(rt: &HostRuntime) {
    text(rt, b"lengths differ: ");
    more_starts(rt);
    text(rt, b"an end of 0: ");
    one(rt, 1, 0, 0, 4);
    text(rt, b"out of reach: ");
    one(rt, 9223372036854775807, 2, 1, 4);
    longest(rt);
}

// A record of two runs, read and written back.
fn back(rt: &HostRuntime, bytes: &[u8]) {
    let mut starts = [7i64; 2];
    let mut ends = [7u64; 2];
    let mut steps = [7i16; 2];
    found(rt, read(bytes, &mut starts, &mut ends, &mut steps));
    text(rt, b", back: ");
    writing(rt, &starts, &ends, &steps, &mut [238u8; 36]);
}

// The largest record read, and written back.
fn returned(rt: &HostRuntime, bytes: &[u8], out: &mut [u8]) {
    let mut starts = [0i64; 4096];
    let mut ends = [0u64; 4096];
    let mut steps = [0i16; 4096];
    found(rt, read(bytes, &mut starts, &mut ends, &mut steps));
    place(rt, starts[4095], ends[4095], steps[4095]);
    text(rt, b"\n");
    wrote(rt, write(&starts, &ends, &steps, out));
}

// 4,096 runs, written, read and written back.
fn largest(rt: &HostRuntime) {
    let mut out = [0u8; 57350];
    let mut again = [0u8; 57350];
    wrote(
        rt,
        write(
            &[-9223372036854775808i64; 4096],
            &counted(),
            &[-32768i16; 4096],
            &mut out,
        ),
    );
    text(rt, b"\n");
    returned(rt, &out, &mut again);
    if check::same(&out, &again) {
        text(rt, b", the same\n");
    } else {
        text(rt, b", others\n");
    }
}

fn records(rt: &HostRuntime) {
    text(rt, b"one run:\n");
    one_run(rt, b"\x10\0\0\0\x01\0\x0A\0\0\0\0\0\0\0\xFB\xFF\x02\0\0\0");
    text(rt, b"two runs:\n");
    two_runs(
        rt,
        b"\x1E\0\0\0\x01\0\x0A\0\0\0\0\0\0\0\xFB\xFF\x02\0\0\0\x06\0\0\0\0\0\0\0\x01\0\x03\0\0\0\x09\x09",
    );
}

pub fn all(rt: &HostRuntime) {
    text(rt, b"== stored\n");
    written(rt);
    not_written(rt);
    records(rt);
    heads(rt);
    kinds(rt);
    reaches(rt);
    text(rt, b"4096 runs: ");
    largest(rt);
}
