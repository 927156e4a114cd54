// Sums of keys, in three columns of 32 bits that are not carried; and the high and low of what they come to. There is no 128-bit type.
ghost use Rattle.std.specs.Prelude.{◌≡◌, true, List, [], ◌++◌, ℕ, ◌+◌, ◌-◌, ◌*◌, ◌<◌, ◌≤◌, max, ℤ};
ghost use Rattle.keys.specs.Key.{unkey};
ghost use Rattle.keys.specs.Widths.{fits_in, half64};
ghost use Rattle.meaning.specs.Column.{offset};
ghost use Rattle.meaning.specs.Sequence.{elements_for};
ghost use Rattle.meaning.proofs.Elements.{one_run};
ghost use Rattle.totals.specs.Totals.{has_high, high_of, low_of};
ghost use Rattle.totals.specs.Inner.{sum_in, Within, Spread, Holds, deepest_of, lowest_key, units_of};

use keys::{bias, is_down, size16};
use loftsplice::seeking::smaller;

// Sums of some keys: top · 2^64 + mid · 2^32 + low; and the least and the greatest of them.
#[derive(Clone, Copy)]
pub(crate) struct Sums {
    pub(crate) top: u64,
    pub(crate) mid: u64,
    pub(crate) low: u64,
    pub(crate) least: u64,
    pub(crate) greatest: u64,
}

// The i64 that lies k above the least one.
pub(crate) fn unbias(k: u64) -> i64
    ensures { result ≡ unkey half64 k }
{
    if k < 9223372036854775808 {
        !((9223372036854775807 - k) as i64)
    } else {
        (k - 9223372036854775808) as i64
    }
}

// The larger of two numbers.
fn larger(a: u64, b: u64) -> u64
    ensures { result ≡ max a b }
{
    if a < b { b } else { a }
}

// The keys least, least + size, .., n of them: n times the middle. Half of n times the odd bit is missing where the way is odd, since n is even there.
fn spread(least: u64, size: u64, n: u64) -> Sums
    requires { (least + size * (n - 1) < 18446744073709551616) × (size ≤ 32768) × (0 < n) × (n ≤ 4294967295) }
    ensures { Spread result least size n }
{
    let way = size * (n - 1);
    let middle = least + way / 2;
    let part = n * (middle % 4294967296) + n / 2 * (way % 2);
    let top = n * (middle / 4294967296) + part / 4294967296;
    let greatest = least + way;
    Sums {
        top: top / 4294967296,
        mid: top % 4294967296,
        low: part % 4294967296,
        least,
        greatest,
    }
}

// The offset of the least of n elements of a run, from offset skip on: the last, where the run falls.
fn deepest(step: i16, skip: u64, n: u64) -> u64
    requires { (0 < n) × (skip + n ≤ 4294967295) }
    ensures { result ≡ deepest_of step skip n }
{
    if is_down(step) { skip + n - 1 } else { skip }
}

// Its key. One product, so that LLVM takes either sign without a jump: in a column of many runs a jump would be guessed wrong.
fn lowest(start: i64, step: i16, skip: u64, n: u64) -> u64
    requires { (0 < n) × (skip + n ≤ 4294967295) × (fits_in half64 (offset start step (skip + n - 1)) ≡ true) }
    ensures { result ≡ lowest_key start step skip n }
{
    let from = bias(start);
    let way = size16(step) * deepest(step, skip, n);
    if is_down(step) {
        from - way
    } else {
        from + way
    }
}

// The n elements of a run from offset skip on.
pub(crate) fn stretch(start: i64, step: i16, skip: u64, n: u64) -> Sums
    requires { (0 < n) × (skip + n ≤ 4294967295) × (fits_in half64 (offset start step (skip + n - 1)) ≡ true) }
    ensures { Holds result (elements_for (one_run (offset start step skip) step n) 0 n) 1 }
{
    spread(lowest(start, step, skip, n), size16(step), n)
}

// The sums of no element.
pub(crate) fn nothing() -> Sums
    ensures { Holds result [] 0 }
{
    Sums {
        top: 0,
        mid: 0,
        low: 0,
        least: 18446744073709551615,
        greatest: 0,
    }
}

// Both together, with no carry and no test.
pub(crate) fn join(a: Sums, b: Sums) -> Sums
    requires { Within a 2097152 × Within b 2097152 }
    ensures { (xs ys : List ℤ) (m n : ℕ) → Holds a xs m → Holds b ys n → Holds result (xs ++ ys) (m + n) }
{
    let top = a.top + b.top;
    let mid = a.mid + b.mid;
    let low = a.low + b.low;
    let least = smaller(a.least, b.least);
    let greatest = larger(a.greatest, b.greatest);
    Sums {
        top,
        mid,
        low,
        least,
        greatest,
    }
}

// The sum of count elements in units of 2^63, from -2^95 on, plus the count.
fn units(s: Sums) -> u64
    requires { Within s 2097152 }
    ensures { result ≡ units_of s }
{
    let mid = s.mid + s.low / 4294967296;
    2 * s.top + mid / 2147483648 + 4294967296
}

// Whether the sum of count elements has a high that is an i64.
pub(crate) fn has_high(s: Sums, count: u64) -> bool
    requires { Within s 2097152 }
    ensures { result ≡ has_high (sum_in s count) }
{
    let all = units(s);
    if all < count {
        return false;
    }
    all - count < 8589934592
}

// That high.
pub(crate) fn high_of(s: Sums, count: u64) -> i64
    requires within { Within s 2097152 }
    requires count_value { has_high (sum_in s count) ≡ true }
    ensures { result ≡ high_of (sum_in s count) }
{
    let mid = s.mid + s.low / 4294967296;
    unbias((units(s) - count) * 2147483648 + mid % 2147483648)
}

// The low beside it.
pub(crate) fn low_of(s: Sums, count: u64) -> u64
    ensures { result ≡ low_of (sum_in s count) }
{
    s.low % 4294967296
}
