// One call a line: what it answers, then the filter's state where there is a filter, then the scan's window, state and carried value.
use bounds::{Bound, BoundaryType, Bounds, Input, Inputs, Limit, Mode, Variable, Variables};
use filter_interval::{Filter, FilterState, Fitted, Sifted};
use loftsplice::scan::{Carried, Made, Scan, State};
use meaning::Answer;
use shown::text;

// A new scan. No column here is refused; one that is would show by the word.
pub fn new(rt: &HostRuntime, starts: &[i64], ends: &[u64], steps: &[i16]) -> Scan {
    match Scan::new(starts, ends, steps) {
        Made::Ready(s) => {
            shown::scan(rt, s);
            s
        }
        Made::Refused(why) => {
            shown::refused(rt, why);
            text(rt, b"\n");
            Scan {
                start: 0,
                end: 0,
                state: State::Ended,
                value: Carried::None,
            }
        }
    }
}

pub fn next(rt: &HostRuntime, s: Scan, starts: &[i64], ends: &[u64], steps: &[i16]) -> Scan {
    shown::told(rt, s.next(starts, ends, steps))
}

pub fn seek(
    rt: &HostRuntime,
    s: Scan,
    starts: &[i64],
    ends: &[u64],
    steps: &[i16],
    target: i64,
) -> Scan {
    shown::told(rt, s.seek(starts, ends, steps, target))
}

pub fn narrow(
    rt: &HostRuntime,
    s: Scan,
    starts: &[i64],
    ends: &[u64],
    steps: &[i16],
    from: u64,
    to: u64,
) -> Scan {
    shown::told(rt, s.narrow(starts, ends, steps, from, to))
}

pub fn reset(rt: &HostRuntime, s: Scan, starts: &[i64], ends: &[u64], steps: &[i16]) -> Scan {
    shown::told(rt, s.reset(starts, ends, steps))
}

pub fn current(rt: &HostRuntime, s: Scan) {
    shown::answer(rt, s.current());
    text(rt, b"\n");
}

pub fn pos(rt: &HostRuntime, s: Scan, starts: &[i64], ends: &[u64], steps: &[i16]) {
    shown::position(rt, s.pos(starts, ends, steps));
    text(rt, b"\n");
}

fn bound(rt: &HostRuntime, b: Bound) {
    let kind = b.boundary;
    let value = b.value;
    match kind {
        BoundaryType::Inclusive => text(rt, b" up to "),
        BoundaryType::Exclusive => text(rt, b" below "),
    }
    shown::signed(rt, value);
}

fn limit(rt: &HostRuntime, l: Limit) {
    match l {
        Limit::Free => text(rt, b" free"),
        Limit::To(b) => bound(rt, b),
    }
}

// The filter's state, then its scan.
fn filter(rt: &HostRuntime, f: Filter) -> Filter {
    let state = f.state;
    let scan = f.scan;
    match state {
        FilterState::Before => text(rt, b" before"),
        FilterState::Within(l) => {
            text(rt, b" within");
            limit(rt, l);
        }
        FilterState::After => text(rt, b" after"),
    }
    shown::scan(rt, scan);
    f
}

fn sifted(rt: &HostRuntime, s: Sifted) -> Filter {
    let answer = s.answer;
    let f = s.filter;
    shown::answer(rt, answer);
    filter(rt, f)
}

pub fn inclusive(value: i64) -> Bound {
    Bound {
        boundary: BoundaryType::Inclusive,
        value,
    }
}

pub fn exclusive(value: i64) -> Bound {
    Bound {
        boundary: BoundaryType::Exclusive,
        value,
    }
}

// No bound, one, two.
pub fn b0() -> Bounds {
    Bounds {
        items: [inclusive(0); 16],
        count: 0,
    }
}

pub fn b1(one: Bound) -> Bounds {
    Bounds {
        items: [one; 16],
        count: 1,
    }
}

pub fn b2(one: Bound, two: Bound) -> Bounds {
    let mut items = [one; 16];
    items[1] = two;
    Bounds { items, count: 2 }
}

pub fn named(input: usize) -> Variable {
    Variable {
        boundary: BoundaryType::Inclusive,
        input,
    }
}

pub fn named_out(input: usize) -> Variable {
    Variable {
        boundary: BoundaryType::Exclusive,
        input,
    }
}

// No variable bound, one, two.
pub fn v0() -> Variables {
    Variables {
        items: [named(0); 16],
        count: 0,
    }
}

pub fn v1(one: Variable) -> Variables {
    Variables {
        items: [one; 16],
        count: 1,
    }
}

pub fn v2(one: Variable, two: Variable) -> Variables {
    let mut items = [one; 16];
    items[1] = two;
    Variables { items, count: 2 }
}

// An input with a value, and one without.
pub fn has(value: i64) -> Input {
    Input {
        answer: Answer::Value(value),
    }
}

pub fn lacks() -> Input {
    Input {
        answer: Answer::None,
    }
}

// No input, one, two.
pub fn i0() -> Inputs {
    Inputs {
        items: [lacks(); 8],
        count: 0,
    }
}

pub fn i1(one: Input) -> Inputs {
    Inputs {
        items: [one; 8],
        count: 1,
    }
}

pub fn i2(one: Input, two: Input) -> Inputs {
    let mut items = [one; 8];
    items[1] = two;
    Inputs { items, count: 2 }
}

// A new filter over the scan, in the mode that the Rust has. None here has too many bounds; one that has would show by the word.
pub fn fnew(rt: &HostRuntime, s: Scan, lower: Bounds, upper: Bounds) -> Filter {
    let mode = Mode::InclusiveWins;
    match Filter::new(s, mode, lower, upper) {
        Fitted::Ready(f) => filter(rt, f),
        Fitted::Refused(why) => {
            shown::refused(rt, why);
            text(rt, b"\n");
            Filter {
                scan: s,
                mode,
                lower: Limit::Free,
                upper: Limit::Free,
                state: FilterState::After,
            }
        }
    }
}

pub fn fnext(
    rt: &HostRuntime,
    f: Filter,
    starts: &[i64],
    ends: &[u64],
    steps: &[i16],
    lower: Variables,
    upper: Variables,
    given: Inputs,
) -> Filter {
    sifted(rt, f.next(starts, ends, steps, lower, upper, given))
}

pub fn fseek(
    rt: &HostRuntime,
    f: Filter,
    starts: &[i64],
    ends: &[u64],
    steps: &[i16],
    target: i64,
    lower: Variables,
    upper: Variables,
    given: Inputs,
) -> Filter {
    sifted(rt, f.seek(starts, ends, steps, target, lower, upper, given))
}

pub fn fcurrent(rt: &HostRuntime, f: Filter) {
    shown::answer(rt, f.current());
    text(rt, b"\n");
}

pub fn freset(rt: &HostRuntime, f: Filter) -> Filter {
    filter(rt, f.reset())
}
