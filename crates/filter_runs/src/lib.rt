// A run of calls on a filter in one call. After the first call, which reads the bounds, a filter keeps one limit; in a window that rises the elements
// that meet it lie before one index, and up to there a run of the filter is a run of its scan.
#![tactic(auto)]

ghost use Rattle.std.specs.Prelude.{◌≡◌, true, ◌≤◌, ◌<◌, length};
ghost use Rattle.meaning.specs.Sequence.{rises};
ghost use Rattle.meaning.specs.Column.{size_of, sequence_of, sound};
ghost use Rattle.meaning.specs.Naming.{column_now, sequence, source};
ghost use Rattle.bounds.specs.declared.Limit.TheVariants.{To};
ghost use Rattle.loftsplice.specs.Scan.{fresh, standing, go_to};
ghost use Rattle.loftsplice.specs.Inner.{filled_by};
ghost use Rattle.filter_interval.specs.Filter.{become, lead_to};
ghost use Rattle.filter_runs.specs.Runs.{lists, filter_tally_of, filter_counted, filter_next_run_of, filter_next_run_out};
ghost use Rattle.filter_runs.specs.Inner.{turned, beyond, widened, kept, Stands, nexts_in, nexts_on};

pub mod seeks;

use bounds::{Bound, Inputs, Limit, Variables, is_exclusive};
use filter_interval::{Filter, FilterState};
use loftsplice::leading::{Lead, led};
use loftsplice::running::{Counted, next_run as run_nexts};
use loftsplice::scan::{Carried, Move, Scan, State};
use meaning::Answer;

// The filter after a run of calls, and the number of values.
#[derive(Clone, Copy)]
pub struct FilterRan {
    pub filter: Filter,
    pub counted: Counted,
}

// Where a scan is led that is to pass an upper bound: to its value, and past that if it is inclusive.
fn lead_out(bound: Bound) -> Lead
    ensures { result ≡ lead_to (To (turned bound)) }
{
    let edge = bound.value;
    let boundary = bound.boundary;
    if is_exclusive(boundary) {
        return Lead::Go(Move::Seek(edge));
    }
    Lead::Past(edge)
}

// Where a window's elements from an index on no longer meet a limit: a scan that stands on the first that does not, or has ended.
pub(crate) fn pass(
    starts: &[i64],
    ends: &[u64],
    steps: &[i16],
    start: u64,
    end: u64,
    up: Limit,
) -> Scan
    requires steps_value { sound (column_now starts ends steps) ≡ true }
    requires start_le_end { (start ≤ end) × (end ≤ size_of (column_now starts ends steps)) }
    requires end_value { rises (sequence_of (column_now starts ends steps)) start end ≡ true }
    ensures { result ≡ (go_to (sequence starts ends steps) (fresh start end) (beyond (sequence starts ends steps) up start end)).scan }
{
    match up {
        Limit::Free => Scan {
            start,
            end,
            state: State::Ended,
            value: Carried::None,
        },
        Limit::To(bound) => {
            let scan = Scan {
                start,
                end,
                state: State::Fresh,
                value: Carried::None,
            };
            let moved = led(scan, starts, ends, steps, false, false, lead_out(bound));
            moved.scan
        }
    }
}

// Where a scan stands: at an index, before its window's first, or past its last.
pub(crate) fn stands_at(scan: Scan) -> u64
    ensures { result ≡ standing scan scan.state }
{
    let start = scan.start;
    let end = scan.end;
    let state = scan.state;
    match state {
        State::Fresh => start,
        State::At(index) => index,
        State::Ended => end,
    }
}

// The limit that a filter keeps.
pub(crate) fn limit_of(state: FilterState) -> Limit
    ensures { result ≡ kept state }
{
    match state {
        FilterState::Before => Limit::Free,
        FilterState::Within(up) => up,
        FilterState::After => Limit::Free,
    }
}

// A filter whose scan was moved in a part of its window.
pub(crate) fn moved_on(filter: Filter, scan: Scan, state: FilterState) -> Filter
    ensures { result ≡ become filter (widened filter.scan scan) state }
{
    let whole = filter.scan;
    let start = whole.start;
    let end = whole.end;
    let at = scan.state;
    let value = scan.value;
    let mode = filter.mode;
    let lower = filter.lower;
    let upper = filter.upper;
    Filter {
        scan: Scan {
            start,
            end,
            state: at,
            value,
        },
        mode: mode,
        lower: lower,
        upper: upper,
        state: state,
    }
}

// As many nexts as the output has places, the first of which gave the element on which the filter stands.
fn nexts_on(
    filter: Filter,
    starts: &[i64],
    ends: &[u64],
    steps: &[i16],
    out: &mut [i64],
) -> FilterRan
    requires { Stands (column_now starts ends steps) filter }
    ensures result_value { filter_tally_of result ≡ filter_counted (nexts_on (sequence starts ends steps) (length out.old) filter) }
    ensures out_after { out.new ≡ filled_by (nexts_in (sequence starts ends steps) (length out.old) filter) out.old }
{
    let scan = filter.scan;
    let state = filter.state;
    let end = scan.end;
    let up = limit_of(state);
    let start = stands_at(scan);
    let over = pass(starts, ends, steps, start, end, up);
    let stop = stands_at(over);
    let part = Scan {
        start,
        end: stop,
        state: State::Fresh,
        value: Carried::None,
    };
    let places = out.len() as u64;
    let ran = run_nexts(part, starts, ends, steps, out);
    let counted = ran.counted;
    let last = ran.scan;
    match counted {
        Counted::Refused(why) => FilterRan {
            filter,
            counted: Counted::Refused(why),
        },
        Counted::Values(values) => {
            if values < places {
                return FilterRan {
                    filter: moved_on(filter, over, FilterState::After),
                    counted: Counted::Values(values),
                };
            }
            FilterRan {
                filter: moved_on(filter, last, FilterState::Within(up)),
                counted: Counted::Values(values),
            }
        }
    }
}

// As many nexts as the output has places, up to the first none; or refused 1, 2, 3, 6, 8, 7, 9.
pub fn next_run(
    filter: Filter,
    starts: &[i64],
    ends: &[u64],
    steps: &[i16],
    lower: Variables,
    upper: Variables,
    inputs: Inputs,
    out: &mut [i64],
) -> FilterRan
    ensures result_value { filter_tally_of result ≡ filter_next_run_of (source starts ends steps) (lists lower upper inputs) (length out.old) filter }
    ensures out_after { out.new ≡ filter_next_run_out (source starts ends steps) (lists lower upper inputs) out.old filter }
{
    let first = filter.next(starts, ends, steps, lower, upper, inputs);
    let answer = first.answer;
    let left = first.filter;
    if let Answer::Refused(why) = answer {
        return FilterRan {
            filter,
            counted: Counted::Refused(why),
        };
    }
    if out.len() == 0 {
        return FilterRan {
            filter,
            counted: Counted::Values(0),
        };
    }
    if let Answer::Value(_) = answer {
        return nexts_on(left, starts, ends, steps, out);
    }
    FilterRan {
        filter: left,
        counted: Counted::Values(0),
    }
}
