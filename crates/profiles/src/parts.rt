// The elements of each run that lie in a window: found by at most two divisions, and counted.
ghost use Rattle.std.specs.Prelude.{◌≡◌, suc, ◌+◌, ◌*◌, ◌-◌, ◌≤◌, ◌<◌, length};
ghost use Rattle.meaning.specs.Column.{end_before};
ghost use Rattle.meaning.specs.Naming.{column, column_now, sequence};
ghost use Rattle.bits.specs.Bitmap.{count_for};
ghost use Rattle.recorded.specs.Records.{carries_record};
ghost use Rattle.recorded.specs.Inner.{floor_of};
ghost use Rattle.profiles.specs.Profiles.{numbers_in};
ghost use Rattle.profiles.specs.Inner.{Fits, RunIs, Below, Strip, Covers, nearest, sought};

use keys::{bias, size16};

// A run of record numbers: its first, its step, and how many follow the first.
#[derive(Clone, Copy)]
pub(crate) struct Run {
    pub(crate) first: u64,
    pub(crate) step: u64,
    pub(crate) more: u64,
}

// n record numbers a step apart.
#[derive(Clone, Copy)]
pub(crate) struct Part {
    pub(crate) first: u64,
    pub(crate) step: u64,
    pub(crate) n: u64,
}

// How many numbers of a run are below x.
fn below(first: u64, step: u64, more: u64, x: u64) -> u64
    requires { (0 < step) × (more < 4294967296) × (first + step * more < 4294967295) }
    ensures { Below first step more x result }
{
    if x <= first {
        return 0;
    }
    if first + step * more < x {
        return more + 1;
    }
    (x - first - 1) / step + 1
}

// The end of the run before, or 0.
fn end_before(ends: &[u64], run: usize) -> u64
    requires { run ≤ length ends.now }
    ensures { result ≡ end_before ends.now run }
{
    if run == 0 { 0 } else { ends[run - 1] }
}

// Run r, as it is read.
fn run_at(starts: &[i64], ends: &[u64], steps: &[i16], count: u64, r: usize) -> Run
    requires fits { Fits (column_now starts ends steps) count }
    requires r_in_bounds { r < length ends.now }
    ensures { RunIs (column starts ends steps) r result.first result.step result.more }
{
    let low = end_before(ends, r);
    let first = bias(starts[r]) - 9223372036854775808;
    let more = ends[r] - low - 1;
    if more == 0 {
        return Run {
            first,
            step: 1,
            more,
        };
    }
    let step = size16(steps[r]);
    Run { first, step, more }
}

// The elements of run r in the window from..to.
pub(crate) fn part_at(
    starts: &[i64],
    ends: &[u64],
    steps: &[i16],
    count: u64,
    r: usize,
    from: u64,
    to: u64,
) -> Part
    requires fits { Fits (column_now starts ends steps) count }
    requires r_in_bounds { (r < length ends.now) × (from ≤ to) }
    ensures { Strip (carries_record (sequence starts ends steps)) (nearest from to (floor_of (column starts ends steps) r))
        (nearest from to (floor_of (column starts ends steps) (suc r))) result.first result.step result.n }
{
    let run = run_at(starts, ends, steps, count, r);
    let first = run.first;
    let step = run.step;
    let skip = below(first, step, run.more, from);
    let take = below(first, step, run.more, to);
    Part {
        first: first + step * skip,
        step,
        n: take - skip,
    }
}

// How many elements lie in the window from..to, all of them in the runs begin..stop.
pub(crate) fn count_in(
    starts: &[i64],
    ends: &[u64],
    steps: &[i16],
    count: u64,
    from: u64,
    to: u64,
    begin: usize,
    stop: usize,
) -> u64
    requires fits { Fits (column_now starts ends steps) count }
    requires from_le_to { (from ≤ to) × (to ≤ count) × Covers starts.now from to begin stop }
    ensures { result ≡ count_for (carries_record (sequence starts ends steps)) from (to - from) }
{
    let mut sum = 0u64;
    let mut r = begin;
    while r < stop {
        let part = part_at(starts, ends, steps, count, r, from, to);
        sum += part.n;
        r += 1;
    }
    sum
}

// How many of its records are listed: the elements, or the others.
pub(crate) fn count_sought(
    here: bool,
    starts: &[i64],
    ends: &[u64],
    steps: &[i16],
    count: u64,
    from: u64,
    to: u64,
    begin: usize,
    stop: usize,
) -> u64
    requires fits { Fits (column_now starts ends steps) count }
    requires from_le_to { (from ≤ to) × (to ≤ count) × Covers starts.now from to begin stop }
    ensures { result ≡ length (numbers_in (sought here (sequence starts ends steps)) from to) }
{
    let elements = count_in(starts, ends, steps, count, from, to, begin, stop);
    if here {
        return elements;
    }
    to - from - elements
}
