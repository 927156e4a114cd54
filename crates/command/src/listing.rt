// list FILE ..: the elements of a window that meet the bounds, in pieces that fit a buffer, so that a listing may have any length.
ghost use Rattle.std.specs.Prelude.{◌+◌, ◌<◌, ◌≤◌};

use bounds::{Bound, BoundaryType, Bounds, Limit, Mode};
use loftsplice::listing::{Listed, list};
use loftsplice::scan::{Made, Position, Scan};
use meaning::Answer;
use telling::forms::{closed, lead, next, said};
use telling::printing;
use words::arguments::{natural, signed};
use words::numbers::Signed;
use words::places::{ABOVE, BELOW, END, FORMAT, FROM, START, TO};

// The bound whose value argument i has.
fn bound(rt: &HostRuntime, boundary: BoundaryType, i: usize) -> Limit {
    match signed(rt, i) {
        Signed::Not => Limit::Free,
        Signed::Is(value) => Limit::To(Bound { boundary, value }),
    }
}

// The bound that is given, by the places of its inclusive and its exclusive word.
fn limit(rt: &HostRuntime, inclusive: usize, exclusive: usize) -> Limit {
    if inclusive != 0 {
        return bound(rt, BoundaryType::Inclusive, inclusive);
    }
    if exclusive != 0 {
        return bound(rt, BoundaryType::Exclusive, exclusive);
    }
    Limit::Free
}

// A limit as a list of bounds.
fn listed(limit: Limit) -> Bounds {
    match limit {
        Limit::Free => Bounds {
            items: [Bound {
                boundary: BoundaryType::Inclusive,
                value: 0,
            }; 16],
            count: 0,
        },
        Limit::To(bound) => Bounds {
            items: [bound; 16],
            count: 1,
        },
    }
}

// Where no element below the limit is sought.
fn target(limit: Limit) -> i64 {
    match limit {
        Limit::Free => -9223372036854775808,
        Limit::To(bound) => bound.value,
    }
}

// The end of the piece that begins at an index: 2,048 elements on, or the window's end.
fn piece_end(at: u64, end: u64) -> u64
    requires { at < end }
    ensures { (at < result) × (result ≤ end) }
{
    if end - at < 2048 { end } else { at + 2048 }
}

// What became of a piece.
#[derive(Clone, Copy)]
enum Part {
    // a refusal, or a write that failed
    Stopped,
    // no element met the bounds: from the second piece on every element is above the lower bound, so those that follow are beyond the upper one
    Empty,
    Printed,
}

// Lists and prints a piece, with the byte that stands before its first element.
fn piece(
    rt: &HostRuntime,
    starts: &[i64],
    ends: &[u64],
    steps: &[i16],
    at: u64,
    stop: u64,
    lower: Bounds,
    upper: Bounds,
    lead: u8,
) -> Part {
    let mut out = [0i64; 2048];
    let mut counts = [0u64; 1];
    // There is one upper bound at most, so the modes list alike.
    let mode = Mode::InclusiveWins;
    match list(
        starts,
        ends,
        steps,
        &[at],
        &[stop],
        mode,
        lower,
        upper,
        &mut out,
        &mut counts,
    ) {
        Listed::Refused(why) => {
            printing::refused(rt, why);
            Part::Stopped
        }
        Listed::Sum(sum) => {
            if sum == 0 {
                return Part::Empty;
            }
            if printing::values(rt, &out, sum, lead) {
                return Part::Printed;
            }
            Part::Stopped
        }
    }
}

// Part by piece, from an index on.
fn pieces(
    rt: &HostRuntime,
    starts: &[i64],
    ends: &[u64],
    steps: &[i16],
    first: u64,
    end: u64,
    lower: Bounds,
    upper: Bounds,
    form: usize,
) {
    let mut at = first;
    let mut before = lead(form);
    while at < end {
        let stop = piece_end(at, end);
        match piece(rt, starts, ends, steps, at, stop, lower, upper, before) {
            Part::Stopped => return,
            Part::Empty => break,
            Part::Printed => {}
        }
        before = next(before);
        at = stop;
    }
    closed(rt, before);
}

// From the first element of the scan's window that is not below the lower bound's value. The seek also refuses a window that doesn't rise,
// the whole of it, before anything is printed.
fn from_scan(
    rt: &HostRuntime,
    starts: &[i64],
    ends: &[u64],
    steps: &[i16],
    scan: Scan,
    lower: Limit,
    upper: Limit,
    form: usize,
) {
    let end = scan.end;
    let moved = scan.seek(starts, ends, steps, target(lower));
    let answer = moved.answer;
    let found = moved.scan;
    if let Answer::Refused(why) = answer {
        printing::refused(rt, why);
        return;
    }
    if !said(rt, form, b"", b"element\n", b"") {
        return;
    }
    match found.pos(starts, ends, steps) {
        Position::Refused(why) => printing::refused(rt, why),
        Position::None => {
            closed(rt, lead(form));
        }
        Position::Index(first) => {
            let low = listed(lower);
            pieces(
                rt,
                starts,
                ends,
                steps,
                first,
                end,
                low,
                listed(upper),
                form,
            );
        }
    }
}

// The scan, with the window that is asked for. Refused where the window ends above the column.
fn narrowed(starts: &[i64], ends: &[u64], steps: &[i16], scan: Scan, start: u64, end: u64) -> Made {
    let moved = scan.narrow(starts, ends, steps, start, end);
    let answer = moved.answer;
    let narrow = moved.scan;
    match answer {
        Answer::Refused(why) => Made::Refused(why),
        _ => Made::Ready(narrow),
    }
}

// The whole column, or the window that two arguments give.
fn window(
    rt: &HostRuntime,
    starts: &[i64],
    ends: &[u64],
    steps: &[i16],
    start: usize,
    end: usize,
) -> Made {
    match Scan::new(starts, ends, steps) {
        Made::Refused(why) => Made::Refused(why),
        Made::Ready(scan) => {
            if start == 0 {
                return Made::Ready(scan);
            }
            narrowed(
                starts,
                ends,
                steps,
                scan,
                natural(rt, start),
                natural(rt, end),
            )
        }
    }
}

pub fn list_window(
    rt: &HostRuntime,
    starts: &[i64],
    ends: &[u64],
    steps: &[i16],
    places: &[usize; 16],
) {
    let form = places[FORMAT];
    let lower = limit(rt, places[FROM], places[ABOVE]);
    let upper = limit(rt, places[TO], places[BELOW]);
    match window(rt, starts, ends, steps, places[START], places[END]) {
        Made::Refused(why) => printing::refused(rt, why),
        Made::Ready(scan) => from_scan(rt, starts, ends, steps, scan, lower, upper, form),
    }
}
