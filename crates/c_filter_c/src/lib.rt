// The static library of crate c_filter: the functions that C calls, each of which calls the one of that name there.
#![tactic(auto)]

ghost use Rattle.std.specs.Prelude.{◌≡◌};
ghost use Rattle.meaning.specs.Naming.{source};
ghost use Rattle.loftsplice.specs.declared.scan.Move.TheVariants.{Next};
ghost use Rattle.filter_interval.specs.Filter.{filter_current_of};
ghost use Rattle.c_forms.specs.Answer.{flat_answer};
ghost use Rattle.c_filter.specs.Filter.{ask_fit, flat_new_filter, call_filter, ask_filter, flat_reset};
ghost use Rattle.c_filter.specs.Naming.{lists};

use c_filter::flat::{FlatFilter, FlatNewFilter, FlatReset, FlatSifted};
use c_forms::answers::FlatAnswer;
use c_forms::scans::FlatScan;

// "Constant bounds are folded when a filter is made", in the mode that is chosen here; or refused 100, 8.
#[unsafe(no_mangle)]
pub extern "C" fn loftsplice_filter_new(
    scan: FlatScan,
    mode: u32,
    lows: &[i64],
    lowkinds: &[u8],
    ups: &[i64],
    upkinds: &[u8],
) -> FlatNewFilter
    ensures { result ≡ flat_new_filter (ask_fit scan mode lows.now lowkinds.now ups.now upkinds.now) }
{
    c_filter::calls::loftsplice_filter_new(scan, mode, lows, lowkinds, ups, upkinds)
}

// The next element that meets the bounds, or none; or refused 100, 1, 2, 3, 6, 8, 7, 9.
#[unsafe(no_mangle)]
pub extern "C" fn loftsplice_filter_next(
    filter: FlatFilter,
    starts: &[i64],
    ends: &[u64],
    steps: &[i16],
    lows: &[u64],
    lowkinds: &[u8],
    ups: &[u64],
    upkinds: &[u8],
    values: &[i64],
    found: &[u8],
) -> FlatSifted
    ensures { result ≡ call_filter (source starts ends steps) Next (lists lows lowkinds ups upkinds values found) filter }
{
    c_filter::calls::loftsplice_filter_next(
        filter, starts, ends, steps, lows, lowkinds, ups, upkinds, values, found,
    )
}

// What its scan carries when Within, else none; or refused 100, 6. It looks at no column.
#[unsafe(no_mangle)]
pub extern "C" fn loftsplice_filter_current(filter: FlatFilter) -> FlatAnswer
    ensures { result ≡ flat_answer (ask_filter filter filter_current_of) }
{
    c_filter::calls::loftsplice_filter_current(filter)
}

// Before, and the scan as it stands; or refused 100.
#[unsafe(no_mangle)]
pub extern "C" fn loftsplice_filter_reset(filter: FlatFilter) -> FlatReset
    ensures { result ≡ flat_reset filter }
{
    c_filter::calls::loftsplice_filter_reset(filter)
}
