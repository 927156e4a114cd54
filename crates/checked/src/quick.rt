// A quick test in front of the exact passes of the check: two passes that take turns, one for starts with room, one for runs at an edge of the i64s.
ghost use Rattle.std.specs.Prelude.{◌≡◌, ◌+◌, ◌%◌, ◌<◌, ◌≤◌, true};
ghost use Rattle.keys.specs.Key.{key};
ghost use Rattle.keys.specs.Widths.{half64};
ghost use Rattle.meaning.specs.Column.{shape_ok, ends_ok, reach_ok};
ghost use Rattle.meaning.specs.Naming.{column, column_now};
ghost use Rattle.meaning.proofs.Soundness.{Sure, SureRun};

use crate::reaches;
use keys::bias;

// At least 2^48 where a start lies 2^47 or more from both edges of the i64s: from there no run leaves them.
fn room(start: i64) -> u64
    ensures { result ≡ (key half64 start + 140737488355328) % 18446744073709551616 }
{
    std::num::wrapping_add_u64(bias(start), 140737488355328)
}

// A run that is plainly right: its end above the one before, its start with room. (The step is taken for its range; it is not read.)
fn roomy(low: u64, end: u64, start: i64, step: i16) -> bool
    ensures { result ≡ true → SureRun low end start step }
{
    if end <= low {
        return false;
    }
    281474976710656 <= room(start)
}

// The same, with the exact test where there is no room.
fn sure(low: u64, end: u64, start: i64, step: i16) -> bool
    ensures { result ≡ true → SureRun low end start step }
{
    if end <= low {
        return false;
    }
    if 281474976710656 <= room(start) {
        return true;
    }
    let k = end - low - 1;
    if 4294967296 <= k {
        return false;
    }
    reaches(start, step, k as u32)
}

// The 64 bits of x, as they stand in the machine.
fn bits(x: i64) -> u64
    ensures { result ≡ (key half64 x + 9223372036854775808) % 18446744073709551616 }
{
    std::num::wrapping_add_u64(bias(x), 9223372036854775808)
}

// Below 2^63 where the run's last element has the sign of its first: then it is an i64, since a sum that leaves the i64s changes its sign. Of a run
// that crosses 0 it tells nothing.
fn turned(low: u64, end: u64, start: i64, step: i16) -> u64
    requires { low < end }
    ensures { result < 9223372036854775808 → SureRun low end start step }
{
    let k = (end - low - 1) & 4294967295;
    let from = bits(start);
    from ^ std::num::wrapping_add_u64(from, bits((step as i64) * (k as i64)))
}

// How far a quick pass came: that many runs, and the end of the last of them.
#[derive(Clone, Copy)]
struct Passed {
    last: u64,
    runs: usize,
}

// The runs from here on that are plainly right, four a turn, up to the first four that are not. No branch of a turn is taken.
fn pass_fours(starts: &[i64], ends: &[u64], steps: &[i16], low: u64, run: usize) -> Passed
    requires steps_value { shape_ok (column_now starts ends steps) ≡ true }
    requires sure { Sure (column_now starts ends steps) low run }
    ensures { Sure (column starts ends steps) result.last result.runs × (run ≤ result.runs) }
{
    let n = ends.len();
    let mut last = low;
    let mut i = run;
    while 4 <= n - i {
        let a = ends[i];
        let b = ends[i + 1];
        let c = ends[i + 2];
        let d = ends[i + 3];
        if !roomy(last, a, starts[i], steps[i]) {
            break;
        }
        if !roomy(a, b, starts[i + 1], steps[i + 1]) {
            break;
        }
        if !roomy(b, c, starts[i + 2], steps[i + 2]) {
            break;
        }
        if !roomy(c, d, starts[i + 3], steps[i + 3]) {
            break;
        }
        last = d;
        i += 4;
    }
    Passed { last, runs: i }
}

// The same for runs at an edge of the i64s, up to four that cross 0 or leave the i64s, or to a start that has room again. What a turn finds is gathered by
// "or", so that it has one test.
fn turn_fours(starts: &[i64], ends: &[u64], steps: &[i16], low: u64, run: usize) -> Passed
    requires steps_value { shape_ok (column_now starts ends steps) ≡ true }
    requires sure { Sure (column_now starts ends steps) low run }
    ensures { Sure (column starts ends steps) result.last result.runs × (run ≤ result.runs) }
{
    let n = ends.len();
    let mut last = low;
    let mut i = run;
    while 4 <= n - i {
        let a = ends[i];
        let b = ends[i + 1];
        let c = ends[i + 2];
        let d = ends[i + 3];
        if a <= last {
            break;
        }
        if b <= a {
            break;
        }
        if c <= b {
            break;
        }
        if d <= c {
            break;
        }
        let ab = turned(last, a, starts[i], steps[i]) | turned(a, b, starts[i + 1], steps[i + 1]);
        let cd = turned(b, c, starts[i + 2], steps[i + 2])
            | turned(c, d, starts[i + 3], steps[i + 3]);
        if 9223372036854775808 <= ab | cd {
            break;
        }
        last = d;
        i += 4;
        if 281474976710656 <= room(starts[i - 1]) {
            break;
        }
    }
    Passed { last, runs: i }
}

// As far as both quick passes come.
fn pass(starts: &[i64], ends: &[u64], steps: &[i16], low: u64, run: usize) -> Passed
    requires steps_value { shape_ok (column_now starts ends steps) ≡ true }
    requires sure { Sure (column_now starts ends steps) low run }
    ensures { Sure (column starts ends steps) result.last result.runs × (run ≤ result.runs) }
{
    let passed = pass_fours(starts, ends, steps, low, run);
    turn_fours(starts, ends, steps, passed.last, passed.runs)
}

// A quick test that is only sufficient: where it passes, 2 and 3 pass. A run at which the quick passes stop is tested by itself. Since the ends rise, one
// test of the last is enough.
pub(crate) fn plainly(starts: &[i64], ends: &[u64], steps: &[i16]) -> bool
    requires { shape_ok (column_now starts ends steps) ≡ true }
    ensures { result ≡ true → (ends_ok ends.now ≡ true) × (reach_ok half64 (column starts ends steps) ≡ true) }
{
    let first = pass(starts, ends, steps, 0, 0);
    let mut last = first.last;
    let mut i = first.runs;
    while i < ends.len() {
        let end = ends[i];
        if !sure(last, end, starts[i], steps[i]) {
            return false;
        }
        let more = pass(starts, ends, steps, end, i + 1);
        last = more.last;
        i = more.runs;
    }
    last <= 4294967295
}
