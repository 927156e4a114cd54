// The C interface: runs of calls on a filter.
#![tactic(auto)]

ghost use Rattle.std.specs.Prelude.{◌≡◌, length};
ghost use Rattle.meaning.specs.Naming.{source};
ghost use Rattle.filter_runs.specs.Runs.{filter_tally_of, refuse_filter_run, filter_next_run_of, filter_next_run_out, seek_run_at, seek_out_at};
ghost use Rattle.c_forms.specs.Flat.{form};
ghost use Rattle.c_filter.specs.Filter.{filter_of};
ghost use Rattle.c_filter.specs.Naming.{lists};
ghost use Rattle.c_filter_runs.specs.Runs.{flat_filter_ran, call_filter_run, filter_out_left};

use c_filter::flat::{FlatFilter, filter_of, flat_filter, is_call};
use c_forms::limits::{inputs_of, variables_of};
use filter_runs::seeks::seek_run;
use filter_runs::{FilterRan, next_run};
use loftsplice::refusal::number;
use loftsplice::running::Counted;

// The filter after the run, a refusal's number or 0, and the number of values.
#[repr(C)]
#[derive(Clone, Copy)]
pub struct FlatFilterRan {
    pub filter: FlatFilter,
    pub refusal: u32,
    pub count: u64,
}

// A refused run hands back the filter that came in.
fn flat_filter_ran(given: FlatFilter, ran: FilterRan) -> FlatFilterRan
    ensures { result ≡ flat_filter_ran given (filter_tally_of ran) }
{
    let filter = ran.filter;
    let counted = ran.counted;
    match counted {
        Counted::Values(count) => FlatFilterRan {
            filter: flat_filter(filter),
            refusal: 0,
            count,
        },
        Counted::Refused(why) => FlatFilterRan {
            filter: given,
            refusal: number(why),
            count: 0,
        },
    }
}

// The number of FORM, and the filter that came in.
fn bad_filter_run(given: FlatFilter) -> FlatFilterRan
    ensures { result ≡ flat_filter_ran given (refuse_filter_run (filter_of given) form) }
{
    FlatFilterRan {
        filter: given,
        refusal: 100,
        count: 0,
    }
}

// As many nexts as the output has places, up to the first none; or refused 100, 1, 2, 3, 6, 8, 7, 9.
#[unsafe(no_mangle)]
pub extern "C" fn loftsplice_filter_next_run(
    filter: FlatFilter,
    starts: &[i64],
    ends: &[u64],
    steps: &[i16],
    lows: &[u64],
    lowkinds: &[u8],
    ups: &[u64],
    upkinds: &[u8],
    values: &[i64],
    found: &[u8],
    out: &mut [i64],
) -> FlatFilterRan
    ensures value { result ≡ call_filter_run (λ l. filter_next_run_of (source starts ends steps) l (length out.old))
        (lists lows lowkinds ups upkinds values found) filter }
    ensures out_after { out.new ≡ filter_out_left (λ l. filter_next_run_out (source starts ends steps) l out.old) out.old
        (lists lows lowkinds ups upkinds values found) filter }
{
    if is_call(filter, lows, lowkinds, ups, upkinds, values, found) {
        let lower = variables_of(lows, lowkinds);
        let upper = variables_of(ups, upkinds);
        let inputs = inputs_of(values, found);
        let asked = filter_of(filter);
        let ran = next_run(asked, starts, ends, steps, lower, upper, inputs, out);
        flat_filter_ran(filter, ran)
    } else {
        bad_filter_run(filter)
    }
}

// A seek of each target in turn, in any order, up to the first none; or refused 100, 1, 2, 3, 6, 8, 7, 9, 10.
#[unsafe(no_mangle)]
pub extern "C" fn loftsplice_filter_seek_run(
    filter: FlatFilter,
    starts: &[i64],
    ends: &[u64],
    steps: &[i16],
    targets: &[i64],
    lows: &[u64],
    lowkinds: &[u8],
    ups: &[u64],
    upkinds: &[u8],
    values: &[i64],
    found: &[u8],
    out: &mut [i64],
) -> FlatFilterRan
    ensures value { result ≡ call_filter_run (seek_run_at targets out (source starts ends steps)) (lists lows lowkinds ups upkinds values found) filter }
    ensures out_after { out.new ≡ filter_out_left (seek_out_at targets out (source starts ends steps)) out.old
        (lists lows lowkinds ups upkinds values found) filter }
{
    if is_call(filter, lows, lowkinds, ups, upkinds, values, found) {
        let lower = variables_of(lows, lowkinds);
        let upper = variables_of(ups, upkinds);
        let inputs = inputs_of(values, found);
        let asked = filter_of(filter);
        let ran = seek_run(
            asked, starts, ends, steps, targets, lower, upper, inputs, out,
        );
        flat_filter_ran(filter, ran)
    } else {
        bad_filter_run(filter)
    }
}
