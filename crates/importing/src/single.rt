// One run of the rule, found from record to record: by what is left of a window, by a new window, by searches.
ghost use Rattle.std.specs.Prelude.{◌≡◌, true, ◌≤◌, ◌<◌, ◌+◌, ◌-◌};
ghost use Rattle.ranges.specs.Ranges.{first_from};
ghost use Rattle.bits.specs.Bitmap.{present};
ghost use Rattle.importing.specs.Inner.{First, Going, Behind};

use bits::{next_absent, next_present, window};

// A run: its step, the number of its records, and the record at which the next one begins.
#[derive(Clone, Copy)]
struct Run {
    step: usize,
    n: usize,
    next: usize,
}

// The run of records one after the other that begins at a record: it ends at the next that is absent.
fn run_of_ones(bytes: &[u8], at: usize, count: usize) -> Run
    requires at_bound { (at + 1 < count) × (count ≤ 524288) }
    requires at_value { (present bytes.now at ≡ true) × (present bytes.now (at + 1) ≡ true) }
    ensures { First (present bytes.now) count at result.step result.n result.next }
{
    let end = next_absent(bytes, at + 2, count);
    let next = next_present(bytes, end, count);
    Run {
        step: 1,
        n: end - at,
        next: next,
    }
}

// How far a run that has begun goes: its last record so far, and the number of its records.
#[derive(Clone, Copy)]
struct Far {
    last: usize,
    n: usize,
}

// Records a step apart, as far as windows tell them. Where the next one lies is not read off the window but added up, so that no turn waits for another.
fn stride(bytes: &[u8], at: usize, second: usize, count: usize) -> Far
    requires at_lt_second { (at < second) × (second < count) × (second - at ≤ 32767) × (count ≤ 524288) }
    requires at_value { (present bytes.now at ≡ true) × (second ≡ first_from (present bytes.now) (at + 1) count) }
    ensures { Going (present bytes.now) count at (second - at) result.last result.n }
{
    let by = second - at;
    let mut last = second;
    let mut n: usize = 2;
    while last + 65 <= count {
        let ahead = window(bytes, last + 1, true);
        if ahead == 0 {
            return Far { last: last, n: n };
        }
        if (u64::trailing_zeros(ahead) as usize) + 1 != by {
            return Far { last: last, n: n };
        }
        last += by;
        n += 1;
    }
    Far { last: last, n: n }
}

// The run that begins at a record and has a second.
fn run_of_steps(bytes: &[u8], at: usize, second: usize, count: usize) -> Run
    requires at_lt_second { (at < second) × (second < count) × (second - at ≤ 32767) × (count ≤ 524288) }
    requires at_value { (present bytes.now at ≡ true) × (second ≡ first_from (present bytes.now) (at + 1) count) }
    ensures { First (present bytes.now) count at result.step result.n result.next }
{
    let by = second - at;
    let far = stride(bytes, at, second, count);
    let mut last = far.last;
    let mut n = far.n;
    let mut next = next_present(bytes, last + 1, count);
    while next < count {
        if next - last != by {
            return Run {
                step: by,
                n: n,
                next: next,
            };
        }
        last = next;
        n += 1;
        next = next_present(bytes, last + 1, count);
    }
    Run {
        step: by,
        n: n,
        next: count,
    }
}

// The run that begins at a record, by searches from record to record.
fn run_from(bytes: &[u8], at: usize, count: usize) -> Run
    requires { (at < count) × (count ≤ 524288) × (present bytes.now at ≡ true) }
    ensures { First (present bytes.now) count at result.step result.n result.next }
{
    let second = next_present(bytes, at + 1, count);
    if second == count {
        return Run {
            step: 0,
            n: 1,
            next: count,
        };
    }
    let by = second - at;
    if 32767 < by {
        return Run {
            step: 0,
            n: 1,
            next: second,
        };
    }
    if by == 1 {
        return run_of_ones(bytes, at, count);
    }
    run_of_steps(bytes, at, second, count)
}

// No run: where a window does not tell.
fn untold() -> Run
    ensures { result.n ≡ 0 }
{
    Run {
        step: 0,
        n: 0,
        next: 0,
    }
}

// The run that begins at a record, where one window tells all of it and where the next begins: records one after the other, or two of them.
fn quick(bytes: &[u8], at: usize, count: usize) -> Run
    requires { (at + 64 ≤ count) × (count ≤ 524288) × (present bytes.now at ≡ true) }
    ensures { 0 < result.n → First (present bytes.now) count at result.step result.n result.next }
{
    let gaps = window(bytes, at, false);
    if gaps == 0 {
        return untold();
    }
    let n = u64::trailing_zeros(gaps) as usize;
    let here = window(bytes, at, true);
    let after = here >> n;
    if after == 0 {
        return untold();
    }
    let next = at + n + (u64::trailing_zeros(after) as usize);
    if n != 1 {
        return Run {
            step: 1,
            n: n,
            next: next,
        };
    }
    let by = next - at;
    let rest = (here >> by) >> 1;
    if rest == 0 {
        return untold();
    }
    let third = next + 1 + (u64::trailing_zeros(rest) as usize);
    if third - next == by {
        return untold();
    }
    Run {
        step: by,
        n: 2,
        next: third,
    }
}

// The run that begins at a record.
fn run_at(bytes: &[u8], at: usize, count: usize) -> Run
    requires { (at < count) × (count ≤ 524288) × (present bytes.now at ≡ true) }
    ensures { First (present bytes.now) count at result.step result.n result.next }
{
    if count < at + 64 {
        return run_from(bytes, at, count);
    }
    let run = quick(bytes, at, count);
    if run.n != 0 {
        return run;
    }
    run_from(bytes, at, count)
}

// A run as above, and what a window shows behind the record at which the next one begins.
#[derive(Clone, Copy)]
pub(crate) struct Found {
    pub(crate) step: usize,
    pub(crate) n: usize,
    pub(crate) next: usize,
    pub(crate) rest: u64,
}

// The records behind one, as far as a window shows them; 0 near the count.
pub(crate) fn behind(bytes: &[u8], at: usize, count: usize) -> u64
    requires { (at ≤ count) × (count ≤ 524288) }
    ensures { 0 < result → Behind bytes.now count at result }
{
    if at + 64 <= count {
        return window(bytes, at, true) >> 1;
    }
    0
}

// No run: where what is left of a window does not tell it.
fn untold_yet() -> Found
    ensures { result.n ≡ 0 }
{
    Found {
        step: 0,
        n: 0,
        next: 0,
        rest: 0,
    }
}

// The run that begins at a record, where what a window shows behind it tells all of it and where the next begins. The window is kept from run to run, so
// that no run waits for a load. A run of eight or more is left to the searches, which pass records one after the other by whole words.
fn told(bytes: &[u8], at: usize, count: usize, shown: u64) -> Found
    requires { (at < count) × (count ≤ 524288) × (present bytes.now at ≡ true) × (0 < shown → Behind bytes.now count at shown) }
    ensures first { 0 < result.n → First (present bytes.now) count at result.step result.n result.next }
    ensures behind { 0 < result.n → 0 < result.rest → Behind bytes.now count result.next result.rest }
{
    if shown == 0 {
        return untold_yet();
    }
    let apart = u64::trailing_zeros(shown) as usize;
    let by = apart + 1;
    let mut rest = (shown >> apart) >> 1;
    let mut last = at + by;
    let mut n: usize = 2;
    while rest != 0 {
        if n == 8 {
            return untold_yet();
        }
        let zeros = u64::trailing_zeros(rest) as usize;
        rest = (rest >> zeros) >> 1;
        if zeros != apart {
            return Found {
                step: by,
                n: n,
                next: last + 1 + zeros,
                rest: rest,
            };
        }
        last += by;
        n += 1;
    }
    untold_yet()
}

// The run that begins at a record, by what is left of the window, or anew.
pub(crate) fn run_behind(bytes: &[u8], at: usize, count: usize, shown: u64) -> Found
    requires { (at < count) × (count ≤ 524288) × (present bytes.now at ≡ true) × (0 < shown → Behind bytes.now count at shown) }
    ensures first { First (present bytes.now) count at result.step result.n result.next }
    ensures behind { 0 < result.rest → Behind bytes.now count result.next result.rest }
{
    let quickly = told(bytes, at, count, shown);
    if quickly.n != 0 {
        return quickly;
    }
    let run = run_at(bytes, at, count);
    let next = run.next;
    let rest = behind(bytes, next, count);
    Found {
        step: run.step,
        n: run.n,
        next: next,
        rest: rest,
    }
}
