// Document 02, request 3: bitmaps as columns, and back. The places of the three arrays hold 7 before, the bytes EE, and all of each is shown.
use exporting::{Exported, export};
use importing::{Imported, import};
use shown::{text, unsigned};

// The runs, none where it is refused.
fn found(rt: &HostRuntime, i: Imported) -> usize {
    match i {
        Imported::Runs(n, ones) => {
            unsigned(rt, n as u64);
            text(rt, b" runs, ");
            unsigned(rt, ones as u64);
            text(rt, b" ones");
            n
        }
        Imported::Refused(why) => {
            shown::refused(rt, why);
            0
        }
    }
}

fn wrote(rt: &HostRuntime, e: Exported) {
    match e {
        Exported::Bytes(n) => {
            unsigned(rt, n as u64);
            text(rt, b" bytes");
        }
        Exported::Refused(why) => shown::refused(rt, why),
    }
}

fn exporting(rt: &HostRuntime, starts: &[i64], ends: &[u64], steps: &[i16], count: u64) {
    let mut out = [238u8; 3];
    wrote(rt, export(starts, ends, steps, count, &mut out));
    shown::hex(rt, &out);
    text(rt, b"\n");
}

// A bitmap as a column, and the runs that are found as a bitmap again.
fn importing(rt: &HostRuntime, bytes: &[u8], count: u64) {
    let mut starts = [7i64; 3];
    let mut ends = [7u64; 3];
    let mut steps = [7i16; 3];
    let n = found(rt, import(bytes, count, &mut starts, &mut ends, &mut steps));
    shown::places(rt, &starts, &ends, &steps);
    text(rt, b"back: ");
    if n <= 3 {
        exporting(rt, &starts[..n], &ends[..n], &steps[..n], count);
    }
}

// Bits past the count are ignored, and not written back.
fn imported(rt: &HostRuntime) {
    text(rt, b"E5 01, 10 records: ");
    importing(rt, &[229, 1], 10);
    text(rt, b"E5 01, 11 records: ");
    importing(rt, &[229, 1], 11);
    text(rt, b"E5 FD, 10 records: ");
    importing(rt, &[229, 253], 10);
    text(rt, b"E5 FD, 11 records: ");
    importing(rt, &[229, 253], 11);
}

fn not_imported(rt: &HostRuntime) {
    text(rt, b"E5, 9 records: ");
    importing(rt, &[229], 9);
    text(rt, b"E5, 524289 records: ");
    importing(rt, &[229], 524289);
    text(rt, b"four runs: ");
    importing(rt, &[43, 137], 16);
}

// A run from a record on, among 10.
fn run(rt: &HostRuntime, start: i64, end: u64, step: i16) {
    exporting(rt, &[start], &[end], &[step], 10);
}

fn exported(rt: &HostRuntime) {
    text(rt, b"to the last record: ");
    run(rt, 3, 4, 2);
    text(rt, b"past the last record: ");
    run(rt, 4, 4, 2);
    text(rt, b"below record 0: ");
    run(rt, -1, 2, 1);
    text(rt, b"does not rise: ");
    run(rt, 4, 2, 0);
    text(rt, b"does not rise, past the last record: ");
    run(rt, 12, 2, -1);
    text(rt, b"four bytes: ");
    exporting(rt, &[3], &[1], &[0], 25);
}

pub fn all(rt: &HostRuntime) {
    text(rt, b"== mapped\n");
    imported(rt);
    not_imported(rt);
    exported(rt);
}
