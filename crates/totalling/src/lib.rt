// totals FILE [START END]..: of each window, or of the whole column, the number of its elements, the least, the greatest and the exact sum; and the same
// over all windows. Nothing is written before all is known.
#![tactic(auto)]

ghost use Rattle.std.specs.Prelude.{◌≡◌, ◌≤◌};
ghost use Rattle.totals.specs.Totals.{worth};
ghost use Rattle.totalling.specs.Decimal.{text_of};

use crate::decimal::spelled;
use loftsplice::rle::{Length, len};
use telling::forms::{lead, next, said};
use telling::printing;
use telling::printing::{signed, unsigned};
use totals::{Edges, Total, Totalled, totals};
use words::places::{FILE, FORMAT, LINES};
use words::windows::windows;

pub mod decimal;

// Writes the text of a sum: its decimal digits, and nothing else.
fn put_sum(rt: &HostRuntime, text: &[u8], high: i64, low: u64) -> bool
    requires { text.now ≡ text_of (worth high low) }
{
    printing::text(rt, text)
}

fn sum(rt: &HostRuntime, high: i64, low: u64) -> bool {
    let mut out = [0u8; 30];
    let at = spelled(high, low, &mut out);
    put_sum(rt, &out[at..], high, low)
}

// The least and the greatest, where there are any, and what stands between them and after them.
fn edged(rt: &HostRuntime, form: usize, edges: Edges) -> bool {
    match edges {
        Edges::None => said(
            rt,
            form,
            b"none greatest none ",
            b",,",
            b"null,\"greatest\":null,",
        ),
        Edges::Are(least, greatest) => {
            let after = if form == LINES { 32 } else { 44 };
            signed(rt, least, after)
                && said(rt, form, b"greatest ", b"", b"\"greatest\":")
                && signed(rt, greatest, after)
        }
    }
}

// A total but for what stands before and after it.
fn told(rt: &HostRuntime, form: usize, count: u64, edges: Edges, high: i64, low: u64) -> bool {
    said(rt, form, b"count ", b"", b"\"count\":")
        && unsigned(rt, count)
        && said(rt, form, b" least ", b",", b",\"least\":")
        && edged(rt, form, edges)
        && said(rt, form, b"sum ", b"", b"\"sum\":")
        && sum(rt, high, low)
}

// A window, after the byte before it where the format has one.
fn placed(rt: &HostRuntime, form: usize, before: u8, start: u64, end: u64) -> bool {
    (before == 0 || printing::text(rt, &[before]))
        && said(rt, form, b"", b"", b"{\"start\":")
        && unsigned(rt, start)
        && said(rt, form, b" ", b",", b",\"end\":")
        && unsigned(rt, end)
        && said(rt, form, b" ", b",", b",")
}

// A window has a least and a greatest where it has an element.
fn edges_of(count: u64, least: i64, greatest: i64) -> Edges {
    if count == 0 {
        return Edges::None;
    }
    Edges::Are(least, greatest)
}

// The row of a window.
fn row(
    rt: &HostRuntime,
    form: usize,
    before: u8,
    start: u64,
    end: u64,
    count: u64,
    least: i64,
    greatest: i64,
    high: i64,
    low: u64,
) -> bool {
    let edges = edges_of(count, least, greatest);
    placed(rt, form, before, start, end)
        && told(rt, form, count, edges, high, low)
        && said(rt, form, b"\n", b"\n", b"}\n")
}

// The rows of the first so many windows.
fn rows(
    rt: &HostRuntime,
    form: usize,
    n: usize,
    from: &[u64; 257],
    to: &[u64; 257],
    counts: &[u64; 256],
    leasts: &[i64; 256],
    greatests: &[i64; 256],
    highs: &[i64; 256],
    lows: &[u64; 256],
) -> bool {
    let mut before = lead(form);
    let mut i = 0;
    while i < 256 && i < n {
        if !row(
            rt,
            form,
            before,
            from[i],
            to[i],
            counts[i],
            leasts[i],
            greatests[i],
            highs[i],
            lows[i],
        ) {
            return false;
        }
        before = next(before);
        i += 1;
    }
    true
}

// The row over all windows, and the end.
fn over_all(rt: &HostRuntime, form: usize, all: Total) -> bool {
    let edges = all.edges;
    said(rt, form, b"all ", b",,", b"],\"all\":{")
        && told(rt, form, all.count, edges, all.high, all.low)
        && said(rt, form, b"\n", b"\n", b"}}\n")
}

// The totals of the first so many windows; over 256 are refused.
fn answered(
    rt: &HostRuntime,
    starts: &[i64],
    ends: &[u64],
    steps: &[i16],
    n: usize,
    from: &[u64; 257],
    to: &[u64; 257],
    form: usize,
)
    requires { n ≤ 257 }
{
    let mut counts = [0u64; 256];
    let mut leasts = [0i64; 256];
    let mut greatests = [0i64; 256];
    let mut highs = [0i64; 256];
    let mut lows = [0u64; 256];
    let first: &[u64] = from;
    let last: &[u64] = to;
    match totals(
        starts,
        ends,
        steps,
        &first[..n],
        &last[..n],
        &mut counts,
        &mut leasts,
        &mut greatests,
        &mut highs,
        &mut lows,
    ) {
        Totalled::Refused(why) => printing::refused(rt, why),
        Totalled::All(all) => {
            if said(
                rt,
                form,
                b"",
                b"start,end,count,least,greatest,sum\n",
                b"{\"windows\":\n",
            ) && rows(
                rt, form, n, from, to, &counts, &leasts, &greatests, &highs, &lows,
            ) {
                over_all(rt, form, all);
            }
        }
    }
}

// The windows that are asked for, or the one that the whole column is.
pub fn total_windows(
    rt: &HostRuntime,
    starts: &[i64],
    ends: &[u64],
    steps: &[i16],
    places: &[usize; 16],
) {
    let mut from = [0u64; 257];
    let mut to = [0u64; 257];
    let form = places[FORMAT];
    let n = windows(rt, places[FILE], &mut from, &mut to);
    if 0 < n {
        answered(rt, starts, ends, steps, n, &from, &to, form);
        return;
    }
    match len(starts, ends, steps) {
        Length::Refused(why) => printing::refused(rt, why),
        Length::Is(length) => {
            to[0] = length;
            answered(rt, starts, ends, steps, 1, &from, &to, form);
        }
    }
}
