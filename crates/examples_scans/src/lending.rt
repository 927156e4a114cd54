// Call sequences on scans that are lent, one call a line: what it answers, then the window, the state and, in brackets, the carried value of the scan as it is
// given back. After a refusal these are as they were lent.
use loftsplice::scan::{Carried, Scan, State};
use shown::text;

fn next(rt: &HostRuntime, s: Scan, starts: &[i64], ends: &[u64], steps: &[i16]) -> Scan {
    text(rt, b"next: ");
    shown::told(rt, lent::lend_next(s, starts, ends, steps))
}

fn seek(
    rt: &HostRuntime,
    s: Scan,
    starts: &[i64],
    ends: &[u64],
    steps: &[i16],
    target: i64,
) -> Scan {
    text(rt, b"seek ");
    shown::signed(rt, target);
    text(rt, b": ");
    shown::told(rt, lent::lend_seek(s, starts, ends, steps, target))
}

fn narrow(
    rt: &HostRuntime,
    s: Scan,
    starts: &[i64],
    ends: &[u64],
    steps: &[i16],
    from: u64,
    to: u64,
) -> Scan {
    text(rt, b"narrow ");
    shown::unsigned(rt, from);
    text(rt, b"..");
    shown::unsigned(rt, to);
    text(rt, b": ");
    shown::told(rt, lent::lend_narrow(s, starts, ends, steps, from, to))
}

fn reset(rt: &HostRuntime, s: Scan, starts: &[i64], ends: &[u64], steps: &[i16]) -> Scan {
    text(rt, b"reset: ");
    shown::told(rt, lent::lend_reset(s, starts, ends, steps))
}

// On C: forward, never back by a seek, a window in it, and a window that is refused.
fn moved(rt: &HostRuntime, starts: &[i64], ends: &[u64], steps: &[i16]) {
    let s = Scan {
        start: 0,
        end: 9,
        state: State::Fresh,
        value: Carried::None,
    };
    let s = next(rt, s, starts, ends, steps);
    let s = next(rt, s, starts, ends, steps);
    let s = seek(rt, s, starts, ends, steps, 26);
    let s = seek(rt, s, starts, ends, steps, 12);
    let s = next(rt, s, starts, ends, steps);
    let s = reset(rt, s, starts, ends, steps);
    let s = next(rt, s, starts, ends, steps);
    let s = narrow(rt, s, starts, ends, steps, 3, 8);
    let s = next(rt, s, starts, ends, steps);
    let s = narrow(rt, s, starts, ends, steps, 0, 10);
    let s = seek(rt, s, starts, ends, steps, 200);
    let s = next(rt, s, starts, ends, steps);
    let s = reset(rt, s, starts, ends, steps);
    seek(rt, s, starts, ends, steps, -9223372036854775808);
}

// On D, which falls in its first run: a seek over the whole is refused, and leaves the scan where it was.
fn falling(rt: &HostRuntime, starts: &[i64], ends: &[u64], steps: &[i16]) {
    let s = Scan {
        start: 0,
        end: 5,
        state: State::Fresh,
        value: Carried::None,
    };
    let s = seek(rt, s, starts, ends, steps, 6);
    let s = next(rt, s, starts, ends, steps);
    let s = seek(rt, s, starts, ends, steps, 6);
    let s = narrow(rt, s, starts, ends, steps, 1, 5);
    let s = seek(rt, s, starts, ends, steps, 7);
    let s = next(rt, s, starts, ends, steps);
    next(rt, s, starts, ends, steps);
}

// Each call once, all on the same scan: where all refuse, it stays the same.
fn each(rt: &HostRuntime, s: Scan, starts: &[i64], ends: &[u64], steps: &[i16]) {
    let s = next(rt, s, starts, ends, steps);
    let s = seek(rt, s, starts, ends, steps, 0);
    let s = narrow(rt, s, starts, ends, steps, 0, 1);
    reset(rt, s, starts, ends, steps);
}

// Scans put together by hand: an end above the length, an index outside the window.
fn unsound(rt: &HostRuntime, starts: &[i64], ends: &[u64], steps: &[i16]) {
    let long = Scan {
        start: 0,
        end: 10,
        state: State::Fresh,
        value: Carried::None,
    };
    each(rt, long, starts, ends, steps);
    let out = Scan {
        start: 2,
        end: 4,
        state: State::At(4),
        value: Carried::Value(30),
    };
    each(rt, out, starts, ends, steps);
}

// A scan that stands in its window, on a column that is refused.
fn damaged(rt: &HostRuntime, starts: &[i64], ends: &[u64], steps: &[i16]) {
    let s = Scan {
        start: 1,
        end: 3,
        state: State::At(2),
        value: Carried::Value(6),
    };
    each(rt, s, starts, ends, steps);
}

fn c_moved(rt: &HostRuntime) {
    moved(rt, &[10, 30, 31, 40], &[4, 5, 6, 9], &[5, 0, -3, 100]);
}

fn d_falling(rt: &HostRuntime) {
    falling(rt, &[10, 6], &[2, 5], &[-5, 1]);
}

fn c_unsound(rt: &HostRuntime) {
    unsound(rt, &[10, 30, 31, 40], &[4, 5, 6, 9], &[5, 0, -3, 100]);
}

// Refused 1, 2 and 3.
fn fewer_starts(rt: &HostRuntime) {
    damaged(rt, &[10], &[2, 5], &[-5, 1]);
}

fn same_ends(rt: &HostRuntime) {
    damaged(rt, &[10, 6], &[2, 2], &[-5, 1]);
}

fn out_of_reach(rt: &HostRuntime) {
    damaged(rt, &[9223372036854775807], &[5], &[1]);
}

pub fn all(rt: &HostRuntime) {
    text(rt, b"== lending\nC\n");
    c_moved(rt);
    text(rt, b"D\n");
    d_falling(rt);
    text(
        rt,
        b"an end above the length, an index outside the window\n",
    );
    c_unsound(rt);
    text(rt, b"damaged\n");
    fewer_starts(rt);
    same_ends(rt);
    out_of_reach(rt);
}
