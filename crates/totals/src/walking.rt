// Windows, run by run.
ghost use Rattle.std.specs.Prelude.{◌≡◌, true, ◌-◌, ◌≤◌, length};
ghost use Rattle.meaning.specs.Sequence.{elements_for};
ghost use Rattle.meaning.specs.Column.{size_of, end_before, run_of, sequence_of, sound};
ghost use Rattle.meaning.specs.Naming.{column_now, sequence};
ghost use Rattle.meaning.proofs.Runs.{Rising};
ghost use Rattle.totals.specs.Inner.{Holds, Inside, Counted, least_at, greatest_at, high_at, low_at, over_in, FilledIn};

use crate::summing::{Sums, high_of, join, low_of, nothing, stretch, unbias};
use loftsplice::seeking::smaller;

// The end of the run before, or 0.
pub(crate) fn end_before(ends: &[u64], run: usize) -> u64
    requires { run ≤ length ends.now }
    ensures { result ≡ end_before ends.now run }
{
    if run == 0 { 0 } else { ends[run - 1] }
}

// The first run whose end is above the index, or the run count: a halving search.
fn run_of(ends: &[u64], index: u64) -> usize
    requires { Rising ends.now }
    ensures { result ≡ run_of ends.now index }
{
    let mut lo = 0;
    let mut hi = ends.len();
    while lo < hi {
        let mid = (lo + hi) / 2;
        if ends[mid] <= index {
            lo = mid + 1;
        } else {
            hi = mid;
        }
    }
    lo
}

// The sums of a window's n elements.
fn walk(starts: &[i64], ends: &[u64], steps: &[i16], from: u64, n: u64) -> Sums
    requires steps_value { sound (column_now starts ends steps) ≡ true }
    requires n_bound { n ≤ size_of (column_now starts ends steps) - from }
    ensures { Holds result (elements_for (sequence starts ends steps) from n) 4096 }
{
    let to = from + n;
    let mut run = run_of(ends, from);
    let mut skip = from - end_before(ends, run);
    let mut at = from;
    let mut sums = nothing();
    while at < to {
        let end = smaller(ends[run], to);
        sums = join(sums, stretch(starts[run], steps[run], skip, end - at));
        skip = 0;
        at = end;
        run += 1;
    }
    sums
}

// How many elements a window has.
fn count_of(from: u64, to: u64) -> u64
    ensures { result ≡ to - from }
{
    if from < to { to - from } else { 0 }
}

// How many elements all windows have; or that one ends beyond the column.
#[derive(Clone, Copy)]
pub(crate) enum Counting {
    All(u64),
    Beyond,
}

// Counts the elements of each window, and tries its end.
pub(crate) fn count_all(from: &[u64], to: &[u64], size: u64, counts: &mut [u64]) -> Counting
    requires from_len { (length from.now ≡ length to.now) × (length from.now ≤ 256) × (length from.now ≤ length counts.old) }
    requires size_bound { size ≤ 4294967295 }
    ensures { Counted result size from.now to.now counts.old counts.new }
{
    let mut sum = 0u64;
    let mut k = 0;
    while k < from.len() {
        let end = to[k];
        if size < end {
            return Counting::Beyond;
        }
        let n = count_of(from[k], end);
        counts[k] = n;
        sum += n;
        k += 1;
    }
    Counting::All(sum)
}

// The sums over all windows; and of each window the least, the greatest, the high and the low. The least and the greatest of an empty one mean nothing.
pub(crate) fn measure(
    starts: &[i64],
    ends: &[u64],
    steps: &[i16],
    from: &[u64],
    to: &[u64],
    leasts: &mut [i64],
    greatests: &mut [i64],
    highs: &mut [i64],
    lows: &mut [u64],
) -> Sums
    requires steps_value { sound (column_now starts ends steps) ≡ true }
    requires inside { Inside (sequence_of (column_now starts ends steps)) from.now to.now }
    requires in_bounds { (256 ≤ length leasts.old) × (256 ≤ length greatests.old) × (256 ≤ length highs.old) × (256 ≤ length lows.old) }
    ensures holds { Holds result (over_in from to (sequence starts ends steps)) 1048576 }
    ensures filled_in { FilledIn from to (least_at (sequence starts ends steps)) leasts }
    ensures filled_in_2 { FilledIn from to (greatest_at (sequence starts ends steps)) greatests }
    ensures filled_in_3 { FilledIn from to (high_at (sequence starts ends steps)) highs }
    ensures filled_in_4 { FilledIn from to (low_at (sequence starts ends steps)) lows }
{
    let mut all = nothing();
    let mut k = 0;
    while k < from.len() {
        let start = from[k];
        let n = count_of(start, to[k]);
        let sums = walk(starts, ends, steps, start, n);
        leasts[k] = unbias(sums.least);
        greatests[k] = unbias(sums.greatest);
        highs[k] = high_of(sums, n);
        lows[k] = low_of(sums, n);
        all = join(all, sums);
        k += 1;
    }
    all
}
