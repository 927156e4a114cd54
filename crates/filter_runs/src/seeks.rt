// A run of seeks on a filter in one call: the first by the filter, the others by its scan in the part of the window that meets the limit.
ghost use Rattle.std.specs.Prelude.{◌≡◌, pos, length, get_or};
ghost use Rattle.meaning.specs.Naming.{column_now, sequence, source, Leaves};
ghost use Rattle.loftsplice.specs.Running.{says_counted};
ghost use Rattle.filter_runs.specs.Runs.{lists, filter_tally_of, seek_run_at, seek_out_at};
ghost use Rattle.filter_runs.specs.Inner.{Stands, seeks_in, seeks_on, filter_room_for};

use crate::{FilterRan, limit_of, moved_on, pass, stands_at};
use bounds::{Inputs, Variables};
use filter_interval::{Filter, FilterState};
use loftsplice::running::Counted;
use loftsplice::scan::{Scan, State};
use meaning::{Answer, Refusal};
use run_calls::seek_run as run_seeks;

// Seeks of targets in turn by a filter that stands within its limit; refused where the output has fewer places than there are values.
fn seeks_on(
    filter: Filter,
    starts: &[i64],
    ends: &[u64],
    steps: &[i16],
    targets: &[i64],
    out: &mut [i64],
) -> FilterRan
    requires { Stands (column_now starts ends steps) filter }
    ensures result_value { filter_tally_of result ≡ filter_room_for (length out.old) filter
        (seeks_on (sequence starts ends steps) targets.now filter) }
    ensures leaves { Leaves out (says_counted result.counted) (seeks_in (sequence starts ends steps) targets.now filter).values }
{
    let scan = filter.scan;
    let state = filter.state;
    let end = scan.end;
    let value = scan.value;
    let up = limit_of(state);
    let start = stands_at(scan);
    let over = pass(starts, ends, steps, start, end, up);
    let stop = stands_at(over);
    let part = Scan {
        start,
        end: stop,
        state: State::At(start),
        value,
    };
    let rest = Scan {
        start,
        end,
        state: State::At(start),
        value,
    };
    let ran = run_seeks(part, starts, ends, steps, targets, out);
    let counted = ran.counted;
    let last = ran.scan;
    match counted {
        Counted::Refused(why) => FilterRan {
            filter,
            counted: Counted::Refused(why),
        },
        Counted::Values(values) => {
            let made = values as usize;
            if made < targets.len() {
                let target = targets[made];
                let sought = rest.seek(starts, ends, steps, target);
                let left = sought.scan;
                return FilterRan {
                    filter: moved_on(filter, left, FilterState::After),
                    counted: Counted::Values(values),
                };
            }
            FilterRan {
                filter: moved_on(filter, last, FilterState::Within(up)),
                counted: Counted::Values(values),
            }
        }
    }
}

// The first of some targets; 0, where there is none.
fn first_of(targets: &[i64]) -> i64
    ensures { result ≡ get_or targets.now 0 (pos 0) }
{
    if targets.len() == 0 {
        return 0;
    }
    targets[0]
}

// A seek of each target in turn, in any order, up to the first none; or refused 1, 2, 3, 6, 8, 7, 9, 10.
pub fn seek_run(
    filter: Filter,
    starts: &[i64],
    ends: &[u64],
    steps: &[i16],
    targets: &[i64],
    lower: Variables,
    upper: Variables,
    inputs: Inputs,
    out: &mut [i64],
) -> FilterRan
    ensures result_value { filter_tally_of result ≡ seek_run_at targets out (source starts ends steps) (lists lower upper inputs) filter }
    ensures out_after { out.new ≡ seek_out_at targets out (source starts ends steps) (lists lower upper inputs) filter }
{
    let target = first_of(targets);
    let first = filter.seek(starts, ends, steps, target, lower, upper, inputs);
    let answer = first.answer;
    let left = first.filter;
    if let Answer::Refused(why) = answer {
        return FilterRan {
            filter,
            counted: Counted::Refused(why),
        };
    }
    if targets.len() == 0 {
        return FilterRan {
            filter,
            counted: Counted::Values(0),
        };
    }
    let Answer::Value(value) = answer else {
        return FilterRan {
            filter: left,
            counted: Counted::Values(0),
        };
    };
    if out.len() == 0 {
        return FilterRan {
            filter,
            counted: Counted::Refused(Refusal::Room),
        };
    }
    let ran = seeks_on(left, starts, ends, steps, &targets[1..], &mut out[1..]);
    let counted = ran.counted;
    let last = ran.filter;
    match counted {
        Counted::Refused(why) => FilterRan {
            filter,
            counted: Counted::Refused(why),
        },
        Counted::Values(values) => {
            out[0] = value;
            FilterRan {
                filter: last,
                counted: Counted::Values(values + 1),
            }
        }
    }
}
