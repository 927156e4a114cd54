// The static library of crate c_filter_runs: the functions that C calls, each of which calls the one of that name there.
#![tactic(auto)]

ghost use Rattle.std.specs.Prelude.{◌≡◌, length};
ghost use Rattle.meaning.specs.Naming.{source};
ghost use Rattle.filter_runs.specs.Runs.{filter_next_run_of, filter_next_run_out, seek_run_at, seek_out_at};
ghost use Rattle.c_filter.specs.Naming.{lists};
ghost use Rattle.c_filter_runs.specs.Runs.{call_filter_run, filter_out_left};

use c_filter::flat::FlatFilter;
use c_filter_runs::FlatFilterRan;

// As many nexts as the output has places, up to the first none; or refused 100, 1, 2, 3, 6, 8, 7, 9.
#[unsafe(no_mangle)]
pub extern "C" fn loftsplice_filter_next_run(
    filter: FlatFilter,
    starts: &[i64],
    ends: &[u64],
    steps: &[i16],
    lows: &[u64],
    lowkinds: &[u8],
    ups: &[u64],
    upkinds: &[u8],
    values: &[i64],
    found: &[u8],
    out: &mut [i64],
) -> FlatFilterRan
    ensures value { result ≡ call_filter_run (λ l. filter_next_run_of (source starts ends steps) l (length out.old))
        (lists lows lowkinds ups upkinds values found) filter }
    ensures out_after { out.new ≡ filter_out_left (λ l. filter_next_run_out (source starts ends steps) l out.old) out.old
        (lists lows lowkinds ups upkinds values found) filter }
{
    c_filter_runs::loftsplice_filter_next_run(
        filter, starts, ends, steps, lows, lowkinds, ups, upkinds, values, found, out,
    )
}

// A seek of each target in turn, in any order, up to the first none; or refused 100, 1, 2, 3, 6, 8, 7, 9, 10.
#[unsafe(no_mangle)]
pub extern "C" fn loftsplice_filter_seek_run(
    filter: FlatFilter,
    starts: &[i64],
    ends: &[u64],
    steps: &[i16],
    targets: &[i64],
    lows: &[u64],
    lowkinds: &[u8],
    ups: &[u64],
    upkinds: &[u8],
    values: &[i64],
    found: &[u8],
    out: &mut [i64],
) -> FlatFilterRan
    ensures value { result ≡ call_filter_run (seek_run_at targets out (source starts ends steps)) (lists lows lowkinds ups upkinds values found) filter }
    ensures out_after { out.new ≡ filter_out_left (seek_out_at targets out (source starts ends steps)) out.old
        (lists lows lowkinds ups upkinds values found) filter }
{
    c_filter_runs::loftsplice_filter_seek_run(
        filter, starts, ends, steps, targets, lows, lowkinds, ups, upkinds, values, found, out,
    )
}
