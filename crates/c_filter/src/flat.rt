// A filter as numbers, both ways, and the tests of its form.
ghost use Rattle.std.specs.Prelude.{◌≡◌, ◌&&◌};
ghost use Rattle.meaning.specs.Refusals.{Number};
ghost use Rattle.filter_interval.specs.Filter.{says_fitted, sifting_of};
ghost use Rattle.c_forms.specs.Scan.{good_scan};
ghost use Rattle.c_forms.specs.Limits.{is_mode, kinds};
ghost use Rattle.c_filter.specs.Filter.{good_filter, good_lists, filter_state_of, filter_of, flat_filter, flat_sifted, flat_new_filter};
ghost use Rattle.c_filter.specs.Naming.{lists};

use bounds::Limit;
use c_forms::answers::{FlatAnswer, flat_answer};
use c_forms::limits::{
    FlatLimit, are_bounds, flat_limit, is_mode, is_paired, limit_of, mode_number, mode_of,
};
use c_forms::scans::{FlatScan, flat_scan, is_scan, no_scan, scan_of};
use filter_interval::{Filter, FilterState, Fitted, Sifted};
use loftsplice::refusal::number;
use meaning::Answer;

// A scan, the folded bounds, a state: 0 Before, 1 Within, 2 After; and the mode. The kept bound is read in state 1 only, and given as none in the others.
#[repr(C)]
#[derive(Clone, Copy)]
pub struct FlatFilter {
    pub scan: FlatScan,
    pub lower: FlatLimit,
    pub upper: FlatLimit,
    pub kept: FlatLimit,
    pub state: u32,
    pub mode: u32,
}

// A refusal's number and a filter that is none, or 0 and the filter.
#[repr(C)]
#[derive(Clone, Copy)]
pub struct FlatNewFilter {
    pub refusal: u32,
    pub filter: FlatFilter,
}

// The filter handed back with the answer.
#[repr(C)]
#[derive(Clone, Copy)]
pub struct FlatSifted {
    pub filter: FlatFilter,
    pub answer: FlatAnswer,
}

// 100 and the filter as it went in, or 0 and the filter.
#[repr(C)]
#[derive(Clone, Copy)]
pub struct FlatReset {
    pub refusal: u32,
    pub filter: FlatFilter,
}

// Whether the mode is one, the scan has the form, and every state and kind is one.
pub(crate) fn is_filter(filter: FlatFilter) -> bool
    ensures { result ≡ good_filter filter }
{
    let scan = filter.scan;
    let lower = filter.lower;
    let upper = filter.upper;
    let kept = filter.kept;
    if !is_mode(filter.mode) {
        return false;
    }
    if !is_scan(scan) {
        return false;
    }
    if 2 < filter.state {
        return false;
    }
    if 2 < lower.kind {
        return false;
    }
    if 2 < upper.kind {
        return false;
    }
    kept.kind <= 2
}

// The state of a number that is one: of any other too, but then FORM is given.
fn filter_state_of(number: u32, kept: Limit) -> FilterState
    ensures { result ≡ filter_state_of number kept }
{
    if number == 0 {
        FilterState::Before
    } else if number == 1 {
        FilterState::Within(kept)
    } else {
        FilterState::After
    }
}

pub fn filter_of(filter: FlatFilter) -> Filter
    ensures { result ≡ filter_of filter }
{
    let scan = scan_of(filter.scan);
    let mode = mode_of(filter.mode);
    let lower = limit_of(filter.lower);
    let upper = limit_of(filter.upper);
    let kept = limit_of(filter.kept);
    let state = filter_state_of(filter.state, kept);
    Filter {
        scan,
        mode,
        lower,
        upper,
        state,
    }
}

pub fn flat_filter(filter: Filter) -> FlatFilter
    ensures { result ≡ flat_filter filter }
{
    let low = filter.lower;
    let high = filter.upper;
    let state = filter.state;
    let wins = filter.mode;
    let scan = flat_scan(filter.scan);
    let mode = mode_number(wins);
    let lower = flat_limit(low);
    let upper = flat_limit(high);
    match state {
        FilterState::Before => FlatFilter {
            scan,
            lower,
            upper,
            kept: FlatLimit { value: 0, kind: 0 },
            state: 0,
            mode,
        },
        FilterState::Within(up) => {
            let kept = flat_limit(up);
            FlatFilter {
                scan,
                lower,
                upper,
                kept,
                state: 1,
                mode,
            }
        }
        FilterState::After => FlatFilter {
            scan,
            lower,
            upper,
            kept: FlatLimit { value: 0, kind: 0 },
            state: 2,
            mode,
        },
    }
}

// A refused call hands back the filter that came in.
pub(crate) fn flat_sifted(given: FlatFilter, sifted: Sifted) -> FlatSifted
    ensures { result ≡ flat_sifted given (sifting_of sifted) }
{
    let answer = sifted.answer;
    let filter = sifted.filter;
    let told = flat_answer(answer);
    match answer {
        Answer::Refused(_) => FlatSifted {
            filter: given,
            answer: told,
        },
        Answer::Value(_) => FlatSifted {
            filter: flat_filter(filter),
            answer: told,
        },
        Answer::None => FlatSifted {
            filter: flat_filter(filter),
            answer: told,
        },
    }
}

pub(crate) fn flat_new_filter(fitted: Fitted) -> FlatNewFilter
    ensures { result ≡ flat_new_filter (says_fitted fitted) }
{
    match fitted {
        Fitted::Ready(filter) => FlatNewFilter {
            refusal: 0,
            filter: flat_filter(filter),
        },
        Fitted::Refused(why) => no_filter(number(why)),
    }
}

// A refusal, and no filter.
pub(crate) fn no_filter(refusal: u32) -> FlatNewFilter
    ensures { result ≡ flat_new_filter (Number refusal) }
{
    let free = FlatLimit { value: 0, kind: 0 };
    let scan = no_scan();
    FlatNewFilter {
        refusal,
        filter: FlatFilter {
            scan,
            lower: free,
            upper: free,
            kept: free,
            state: 4294967295,
            mode: 0,
        },
    }
}

// Whether what a filter is made from has the form: the scan, the mode, and each list of bounds.
pub(crate) fn is_fit(
    scan: FlatScan,
    mode: u32,
    lower: usize,
    lowkinds: &[u8],
    upper: usize,
    upkinds: &[u8],
) -> bool
    ensures { result ≡ (good_scan scan && is_mode mode && kinds lower lowkinds.now && kinds upper upkinds.now) }
{
    if is_scan(scan) {
        are_bounds(mode, lower, lowkinds, upper, upkinds)
    } else {
        false
    }
}

// Whether what a call is handed has the form: the filter, and each list.
pub fn is_call(
    filter: FlatFilter,
    lows: &[u64],
    lowkinds: &[u8],
    ups: &[u64],
    upkinds: &[u8],
    values: &[i64],
    found: &[u8],
) -> bool
    ensures { result ≡ (good_filter filter && good_lists (lists lows lowkinds ups upkinds values found)) }
{
    if !is_filter(filter) {
        return false;
    }
    if !is_paired(1, 2, lows.len(), lowkinds) {
        return false;
    }
    if !is_paired(1, 2, ups.len(), upkinds) {
        return false;
    }
    is_paired(0, 1, values.len(), found)
}
