// The calls on a filter.
ghost use Rattle.std.specs.Prelude.{◌≡◌, true, length};
ghost use Rattle.meaning.specs.Naming.{source};
ghost use Rattle.loftsplice.specs.declared.scan.Move.TheVariants.{Next};
ghost use Rattle.filter_interval.specs.Filter.{filter_current_of};
ghost use Rattle.filter_interval.specs.Asking.{asked_of};
ghost use Rattle.c_forms.specs.Answer.{flat_answer};
ghost use Rattle.c_filter.specs.Filter.{ask_fit, flat_new_filter, handed, call_filter, ask_filter, flat_reset};
ghost use Rattle.c_filter.specs.Naming.{lists};

use crate::flat::{
    FlatFilter, FlatNewFilter, FlatReset, FlatSifted, filter_of, flat_filter, flat_new_filter,
    flat_sifted, is_call, is_filter, is_fit, no_filter,
};
use c_forms::answers::{FlatAnswer, bad_form, flat_answer};
use c_forms::limits::{bounds_of, inputs_of, mode_of, variables_of};
use c_forms::scans::{FlatScan, scan_of};
use filter_interval::Filter;
use filter_interval::sifting::{Asked, ask, ask_bare, lead_on, too_many};
use loftsplice::scan::Move;

// "Constant bounds are folded when a filter is made", in the mode that is chosen here; or refused 100, 8.
#[unsafe(no_mangle)]
pub extern "C" fn loftsplice_filter_new(
    scan: FlatScan,
    mode: u32,
    lows: &[i64],
    lowkinds: &[u8],
    ups: &[i64],
    upkinds: &[u8],
) -> FlatNewFilter
    ensures { result ≡ flat_new_filter (ask_fit scan mode lows.now lowkinds.now ups.now upkinds.now) }
{
    if is_fit(scan, mode, lows.len(), lowkinds, ups.len(), upkinds) {
        let lower = bounds_of(lows, lowkinds);
        let upper = bounds_of(ups, upkinds);
        flat_new_filter(Filter::new(scan_of(scan), mode_of(mode), lower, upper))
    } else {
        no_filter(100)
    }
}

// Whether there are no variable bounds.
fn is_bare(lows: &[u64], ups: &[u64]) -> bool
    ensures { result ≡ true → (length lows.now ≡ 0) × (length ups.now ≡ 0) }
{
    if 0 < lows.len() {
        return false;
    }
    ups.len() == 0
}

// What a call asks of the filter's scan. Lists that are not there are not built.
fn asked_of(
    filter: Filter,
    step: Move,
    lows: &[u64],
    lowkinds: &[u8],
    ups: &[u64],
    upkinds: &[u8],
    values: &[i64],
    found: &[u8],
) -> Asked
    ensures { result ≡ asked_of (handed step (lists lows lowkinds ups upkinds values found)) filter }
{
    if is_bare(lows, ups) {
        return ask_bare(filter, step);
    }
    let lower = variables_of(lows, lowkinds);
    let upper = variables_of(ups, upkinds);
    let inputs = inputs_of(values, found);
    ask(filter, step, lower, upper, inputs)
}

// A next or a seek; or refused 100, 1, 2, 3, 6, 8, 7, 9. A filter is taken apart and put together again inside it: through memory, each copy of a bound
// is read back slowly. For the same reason crate `c_filter_seek` has the seek: of one caller each, it is compiled into either.
pub fn call(
    filter: FlatFilter,
    starts: &[i64],
    ends: &[u64],
    steps: &[i16],
    step: Move,
    lows: &[u64],
    lowkinds: &[u8],
    ups: &[u64],
    upkinds: &[u8],
    values: &[i64],
    found: &[u8],
) -> FlatSifted
    ensures { result ≡ call_filter (source starts ends steps) step (lists lows lowkinds ups upkinds values found) filter }
{
    if is_call(filter, lows, lowkinds, ups, upkinds, values, found) {
        let given = filter_of(filter);
        let many = too_many(lows.len(), ups.len(), values.len());
        let asked = asked_of(given, step, lows, lowkinds, ups, upkinds, values, found);
        let sifted = lead_on(given, starts, ends, steps, many, asked);
        flat_sifted(filter, sifted)
    } else {
        let answer = bad_form();
        FlatSifted { filter, answer }
    }
}

// The next element that meets the bounds, or none; or refused 100, 1, 2, 3, 6, 8, 7, 9.
#[unsafe(no_mangle)]
pub extern "C" fn loftsplice_filter_next(
    filter: FlatFilter,
    starts: &[i64],
    ends: &[u64],
    steps: &[i16],
    lows: &[u64],
    lowkinds: &[u8],
    ups: &[u64],
    upkinds: &[u8],
    values: &[i64],
    found: &[u8],
) -> FlatSifted
    ensures { result ≡ call_filter (source starts ends steps) Next (lists lows lowkinds ups upkinds values found) filter }
{
    let step = Move::Next;
    call(
        filter, starts, ends, steps, step, lows, lowkinds, ups, upkinds, values, found,
    )
}

// What its scan carries when Within, else none; or refused 100, 6. It looks at no column.
#[unsafe(no_mangle)]
pub extern "C" fn loftsplice_filter_current(filter: FlatFilter) -> FlatAnswer
    ensures { result ≡ flat_answer (ask_filter filter filter_current_of) }
{
    if is_filter(filter) {
        flat_answer(filter_of(filter).current())
    } else {
        bad_form()
    }
}

// Before, and the scan as it stands; or refused 100.
#[unsafe(no_mangle)]
pub extern "C" fn loftsplice_filter_reset(filter: FlatFilter) -> FlatReset
    ensures { result ≡ flat_reset filter }
{
    if is_filter(filter) {
        FlatReset {
            refusal: 0,
            filter: flat_filter(filter_of(filter).reset()),
        }
    } else {
        FlatReset {
            refusal: 100,
            filter,
        }
    }
}
