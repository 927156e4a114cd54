// Document 02, request 11: exact totals, a line a call. Those over all windows, the sum as high and low; then the whole of the five outputs, of which counts
// and lows hold 99 before, and leasts, greatests and highs -7.
use crate::listing::{numbers, values};
use shown::{signed, text, unsigned};
use totals::{Edges, Total, Totalled, totals};

fn between(rt: &HostRuntime, edges: Edges) {
    match edges {
        Edges::None => text(rt, b" of none"),
        Edges::Are(least, greatest) => {
            text(rt, b" from ");
            signed(rt, least);
            text(rt, b" to ");
            signed(rt, greatest);
        }
    }
}

fn over_all(rt: &HostRuntime, all: Total) {
    let edges = all.edges;
    unsigned(rt, all.count);
    between(rt, edges);
    text(rt, b", sum ");
    signed(rt, all.high);
    text(rt, b" ");
    unsigned(rt, all.low);
}

fn told(rt: &HostRuntime, answer: Totalled) {
    match answer {
        Totalled::All(all) => over_all(rt, all),
        Totalled::Refused(why) => shown::refused(rt, why),
    }
}

// How a call leaves the five outputs.
fn left(
    rt: &HostRuntime,
    counts: &[u64],
    leasts: &[i64],
    greatests: &[i64],
    highs: &[i64],
    lows: &[u64],
) {
    text(rt, b" |");
    numbers(rt, counts);
    text(rt, b" |");
    values(rt, leasts);
    text(rt, b" |");
    values(rt, greatests);
    text(rt, b" |");
    values(rt, highs);
    text(rt, b" |");
    numbers(rt, lows);
    text(rt, b"\n");
}

// The totals of some windows, with three places in each output.
fn windows(
    rt: &HostRuntime,
    starts: &[i64],
    ends: &[u64],
    steps: &[i16],
    from: &[u64],
    to: &[u64],
) {
    let mut counts = [99u64; 3];
    let mut leasts = [-7i64; 3];
    let mut greatests = [-7i64; 3];
    let mut highs = [-7i64; 3];
    let mut lows = [99u64; 3];
    told(
        rt,
        totals(
            starts,
            ends,
            steps,
            from,
            to,
            &mut counts,
            &mut leasts,
            &mut greatests,
            &mut highs,
            &mut lows,
        ),
    );
    left(rt, &counts, &leasts, &greatests, &highs, &lows);
}

// 10 5, 6 7 8: a window need not rise; an empty one; one that occurs twice; too many places, too few.
fn on_d(rt: &HostRuntime, starts: &[i64], ends: &[u64], steps: &[i16]) {
    windows(rt, starts, ends, steps, &[0], &[5]);
    windows(rt, starts, ends, steps, &[0, 3, 4], &[3, 3, 2]);
    windows(rt, starts, ends, steps, &[1, 1], &[4, 4]);
    windows(rt, starts, ends, steps, &[], &[]);
    windows(rt, starts, ends, steps, &[5, 9], &[5, 0]);
    windows(rt, starts, ends, steps, &[0, 0, 0, 0], &[5, 5, 5, 5]);
    windows(rt, starts, ends, steps, &[0, 0, 0, 0], &[5, 5, 5, 6]);
    windows(rt, starts, ends, steps, &[0, 0, 0, 0], &[5, 5, 5]);
}

// -3 -8: the high goes down, and the low stays from 0 on.
fn below(rt: &HostRuntime, starts: &[i64], ends: &[u64], steps: &[i16]) {
    windows(rt, starts, ends, steps, &[0, 1], &[2, 2]);
}

// As long as a column may be, of the least i64: once and one more reach the least sum, two more pass it.
fn longest(rt: &HostRuntime, starts: &[i64], ends: &[u64], steps: &[i16]) {
    windows(rt, starts, ends, steps, &[0], &[4294967295]);
    windows(rt, starts, ends, steps, &[0, 7], &[4294967295, 8]);
    windows(rt, starts, ends, steps, &[0, 7], &[4294967295, 9]);
    windows(
        rt,
        starts,
        ends,
        steps,
        &[0, 0, 0, 0],
        &[4294967295, 4294967295, 4294967295, 4294967295],
    );
}

// D with an end that does not rise.
fn damaged(rt: &HostRuntime, starts: &[i64], ends: &[u64], steps: &[i16]) {
    windows(rt, starts, ends, steps, &[0, 0], &[9]);
}

pub fn all(rt: &HostRuntime) {
    text(rt, b"== totalled\nD\n");
    on_d(rt, &[10, 6], &[2, 5], &[-5, 1]);
    text(rt, b"below zero\n");
    below(rt, &[-3], &[2], &[-5]);
    text(rt, b"longest\n");
    longest(rt, &[-9223372036854775808], &[4294967295], &[0]);
    text(rt, b"damaged\n");
    damaged(rt, &[10, 6], &[2, 2], &[-5, 1]);
}
