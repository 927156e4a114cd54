// One call on a filter: what next and seek share. The bounds are read first, the scan is led once, and its answer settles the filter.
ghost use Rattle.std.specs.Prelude.{◌≡◌, ◌||◌, ltb};
ghost use Rattle.meaning.specs.Naming.{source};
ghost use Rattle.loftsplice.specs.Scan.{outcome_of};
ghost use Rattle.loftsplice.specs.Lead.{lead_of};
ghost use Rattle.filter_interval.specs.declared.FilterState.TheVariants.{Before};
ghost use Rattle.filter_interval.specs.Filter.{sifting_of, handing, raised, lead_to, call_of};
ghost use Rattle.filter_interval.specs.Asking.{asked_in, asked_of, bare, settled};

use crate::{Filter, FilterState, Sifted};
use bounds::{
    Bound, BoundaryType, Inputs, Limit, Reading, Side, Variables, choose, is_exclusive,
    meets_upper, read,
};
use loftsplice::leading::{Lead, led};
use loftsplice::scan::{Move, Moved};
use meaning::Answer;

// Where a call leads the scan, and the limit above that is then to be met. Where a bound was not read: nowhere, and the filter's own limit.
#[derive(Clone, Copy)]
pub struct Asked {
    pub unread: bool,
    pub lead: Lead,
    pub upper: Limit,
}

// 8: "over 16 bounds in a list, over 8 inputs"
pub fn too_many(lows: usize, ups: usize, ins: usize) -> bool
    ensures { result ≡ (ltb 16 lows || ltb 16 ups || ltb 8 ins) }
{
    if 16 < lows {
        return true;
    }
    if 16 < ups {
        return true;
    }
    8 < ins
}

// seek: "the lower bound, if any, is first raised to the inclusive target where that is greater in the order"
fn raise(step: Move, low: Limit) -> Limit
    ensures { result ≡ raised step low }
{
    match step {
        Move::Next => low,
        Move::Seek(target) => match low {
            Limit::Free => Limit::Free,
            Limit::To(bound) => {
                let inclusive = Bound {
                    boundary: BoundaryType::Inclusive,
                    value: target,
                };
                Limit::To(choose(Side::Lower, bound, inclusive))
            }
        },
    }
}

// "with a lower bound, the scan seeks its value, and moves on once more if that bound is exclusive ..; without one, the scan does next"
fn lead_to(low: Limit) -> Lead
    ensures { result ≡ lead_to low }
{
    match low {
        Limit::Free => Lead::Go(Move::Next),
        Limit::To(bound) => {
            let edge = bound.value;
            let boundary = bound.boundary;
            if is_exclusive(boundary) {
                return Lead::Past(edge);
            }
            Lead::Go(Move::Seek(edge))
        }
    }
}

// Before: the folded constants with the variable bounds as read, the upper ones in the filter's mode.
fn begin(filter: Filter, step: Move, lower: Variables, upper: Variables, inputs: Inputs) -> Asked
    ensures { result ≡ asked_in (handing step lower upper inputs) filter Before }
{
    let mode = filter.mode;
    let low = filter.lower;
    let up = filter.upper;
    let first = read(Side::Lower, low, lower, inputs);
    let second = read(Side::Upper(mode), up, upper, inputs);
    let Reading::As(below) = first else {
        return Asked {
            unread: true,
            lead: Lead::Stay,
            upper: up,
        };
    };
    let Reading::As(above) = second else {
        return Asked {
            unread: true,
            lead: Lead::Stay,
            upper: up,
        };
    };
    let raised = raise(step, below);
    Asked {
        unread: false,
        lead: lead_to(raised),
        upper: above,
    }
}

// Before: by the bounds as read; Within: by the kept bound; "After stays and moves nothing".
pub fn ask(filter: Filter, step: Move, lower: Variables, upper: Variables, inputs: Inputs) -> Asked
    ensures { result ≡ asked_of (handing step lower upper inputs) filter }
{
    let state = filter.state;
    match state {
        FilterState::Before => begin(filter, step, lower, upper, inputs),
        FilterState::Within(kept) => Asked {
            unread: false,
            lead: Lead::Go(step),
            upper: kept,
        },
        FilterState::After => Asked {
            unread: false,
            lead: Lead::Stay,
            upper: Limit::Free,
        },
    }
}

// The same of a call without variable bounds: the folded constants are its bounds.
pub fn ask_bare(filter: Filter, step: Move) -> Asked
    ensures { result ≡ asked_of (bare step) filter }
{
    let state = filter.state;
    match state {
        FilterState::Before => {
            let low = filter.lower;
            let upper = filter.upper;
            let raised = raise(step, low);
            Asked {
                unread: false,
                lead: lead_to(raised),
                upper,
            }
        }
        FilterState::Within(kept) => Asked {
            unread: false,
            lead: Lead::Go(step),
            upper: kept,
        },
        FilterState::After => Asked {
            unread: false,
            lead: Lead::Stay,
            upper: Limit::Free,
        },
    }
}

// "If the scan is at an element within the upper bound, the filter is Within and keeps that upper bound; else After." A refusal leaves it as it was.
fn settle(filter: Filter, up: Limit, moved: Moved) -> Sifted
    ensures { sifting_of result ≡ settled filter up (outcome_of moved) }
{
    let mode = filter.mode;
    let lower = filter.lower;
    let upper = filter.upper;
    let scan = moved.scan;
    let answer = moved.answer;
    if let Answer::Refused(why) = answer {
        return Sifted {
            filter,
            answer: Answer::Refused(why),
        };
    }
    if let Answer::Value(value) = answer {
        if meets_upper(value, up) {
            return Sifted {
                filter: Filter {
                    scan: scan,
                    mode: mode,
                    lower: lower,
                    upper: upper,
                    state: FilterState::Within(up),
                },
                answer: Answer::Value(value),
            };
        }
    }
    Sifted {
        filter: Filter {
            scan: scan,
            mode: mode,
            lower: lower,
            upper: upper,
            state: FilterState::After,
        },
        answer: Answer::None,
    }
}

// The scan is led once, and its answer settles the filter.
pub fn lead_on(
    filter: Filter,
    starts: &[i64],
    ends: &[u64],
    steps: &[i16],
    many: bool,
    to: Asked,
) -> Sifted
    ensures { sifting_of result ≡ settled filter to.upper (lead_of (source starts ends steps) many to.unread to.lead filter.scan) }
{
    let scan = filter.scan;
    let unread = to.unread;
    let lead = to.lead;
    let up = to.upper;
    let moved = led(scan, starts, ends, steps, many, unread, lead);
    settle(filter, up, moved)
}

// One call, a next or a seek: refused 1, 2, 3, 6, 8, 7, 9, or one step.
pub(crate) fn sift(
    filter: Filter,
    starts: &[i64],
    ends: &[u64],
    steps: &[i16],
    step: Move,
    lower: Variables,
    upper: Variables,
    inputs: Inputs,
) -> Sifted
    ensures { sifting_of result ≡ call_of (source starts ends steps) (handing step lower upper inputs) filter }
{
    let lows = lower.count;
    let ups = upper.count;
    let ins = inputs.count;
    let many = too_many(lows, ups, ins);
    let asked = ask(filter, step, lower, upper, inputs);
    lead_on(filter, starts, ends, steps, many, asked)
}
