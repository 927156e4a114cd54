// Elements and other records of a window, written out: by fills, as many as there are runs and gaps.
ghost use Rattle.std.specs.Prelude.{◌≡◌, not, ◌+◌, ◌*◌, ◌-◌, ◌≤◌, ◌<◌, length};
ghost use Rattle.meaning.specs.Column.{sequence_of};
ghost use Rattle.meaning.specs.Naming.{column_now, sequence};
ghost use Rattle.recorded.specs.Records.{carries_record};
ghost use Rattle.profiles.specs.Profiles.{numbers_in};
ghost use Rattle.profiles.specs.Inner.{Fits, Ahead, Covers, stepped, between, beyond_of, past_of, sought};

use crate::parts::part_at;

// Numbers a step apart.
fn fill(out: &mut [u64], value: u64, step: u64)
    requires { value + step * length out.old < 18446744073709551616 }
    ensures { out.new ≡ stepped value step (length out.old) }
{
    let mut next = value;
    let mut i = 0;
    while i < out.len() {
        out[i] = next;
        next += step;
        i += 1;
    }
}

// The records between neighbours of a run, gap by gap.
fn fill_gaps(out: &mut [u64], first: u64, step: u64, gaps: u64)
    requires { (0 < step) × (length out.old ≡ (step - 1) * gaps) × (first + step * gaps < 4294967295) × (step ≤ 32768) }
    ensures { out.new ≡ between first step gaps }
{
    let wide = (step - 1) as usize;
    let mut at = 0usize;
    let mut value = first + 1;
    let mut k = 0;
    while k < gaps {
        let next = at + wide;
        fill(&mut out[at..next], value, 1);
        at = next;
        value += step;
        k += 1;
    }
}

// The same by one fill where that is enough: none where the step is 1, and where it is 2 they are 2 apart again.
fn fill_between(out: &mut [u64], first: u64, step: u64, gaps: u64)
    requires { (0 < step) × (length out.old ≡ (step - 1) * gaps) × (first + step * gaps < 4294967295) × (step ≤ 32768) }
    ensures { out.new ≡ between first step gaps }
{
    if step == 1 {
        return;
    }
    if step == 2 {
        fill(out, first + 1, 2);
        return;
    }
    fill_gaps(out, first, step, gaps);
}

// The records from at on up to the last of n numbers, but these: how many they are.
fn passed(at: u64, first: u64, step: u64, n: u64) -> u64
    requires { Ahead at first step n }
    ensures { result ≡ length (past_of at first step n) }
{
    if n == 0 {
        return 0;
    }
    first - at + (step - 1) * (n - 1)
}

// Where they end: after the last number.
fn beyond(at: u64, first: u64, step: u64, n: u64) -> u64
    requires { Ahead at first step n }
    ensures { result ≡ beyond_of at first step n }
{
    if n == 0 {
        return at;
    }
    first + step * (n - 1) + 1
}

// And what they are: those before the first number, then those between neighbours.
fn fill_past(out: &mut [u64], at: u64, first: u64, step: u64, n: u64)
    requires out_len { length out.old ≡ length (past_of at first step n) }
    requires ahead { Ahead at first step n }
    ensures { out.new ≡ past_of at first step n }
{
    if n == 0 {
        return;
    }
    let gap = (first - at) as usize;
    fill(&mut out[..gap], at, 1);
    fill_between(&mut out[gap..], first, step, n - 1);
}

// The elements of a window, all of them in the runs begin..stop.
fn write_elements(
    starts: &[i64],
    ends: &[u64],
    steps: &[i16],
    count: u64,
    from: u64,
    to: u64,
    begin: usize,
    stop: usize,
    out: &mut [u64],
)
    requires fits { Fits (column_now starts ends steps) count }
    requires from_le_to { (from ≤ to) × (to ≤ count) × Covers starts.now from to begin stop }
    requires out_len { length out.old ≡ length (numbers_in (carries_record (sequence_of (column_now starts ends steps))) from to) }
    ensures { out.new ≡ numbers_in (carries_record (sequence starts ends steps)) from to }
{
    let mut n = 0usize;
    let mut r = begin;
    while r < stop {
        let part = part_at(starts, ends, steps, count, r, from, to);
        let next = n + part.n as usize;
        fill(&mut out[n..next], part.first, part.step);
        n = next;
        r += 1;
    }
}

// Its other records: up to the last element of each run, then to the window's end.
fn write_others(
    starts: &[i64],
    ends: &[u64],
    steps: &[i16],
    count: u64,
    from: u64,
    to: u64,
    begin: usize,
    stop: usize,
    out: &mut [u64],
)
    requires fits { Fits (column_now starts ends steps) count }
    requires from_le_to { (from ≤ to) × (to ≤ count) × Covers starts.now from to begin stop }
    requires out_len { length out.old ≡ length (numbers_in (λ i. not (carries_record (sequence_of (column_now starts ends steps)) i)) from to) }
    ensures { out.new ≡ numbers_in (λ i. not (carries_record (sequence starts ends steps) i)) from to }
{
    let mut at = from;
    let mut n = 0usize;
    let mut r = begin;
    while r < stop {
        let part = part_at(starts, ends, steps, count, r, from, to);
        let first = part.first;
        let step = part.step;
        let next = n + passed(at, first, step, part.n) as usize;
        fill_past(&mut out[n..next], at, first, step, part.n);
        at = beyond(at, first, step, part.n);
        n = next;
        r += 1;
    }
    fill(&mut out[n..], at, 1);
}

// The one or the other.
pub(crate) fn write_sought(
    here: bool,
    starts: &[i64],
    ends: &[u64],
    steps: &[i16],
    count: u64,
    from: u64,
    to: u64,
    begin: usize,
    stop: usize,
    out: &mut [u64],
)
    requires fits { Fits (column_now starts ends steps) count }
    requires from_le_to { (from ≤ to) × (to ≤ count) × Covers starts.now from to begin stop }
    requires out_len { length out.old ≡ length (numbers_in (sought here (sequence_of (column_now starts ends steps))) from to) }
    ensures { out.new ≡ numbers_in (sought here (sequence starts ends steps)) from to }
{
    if here {
        write_elements(starts, ends, steps, count, from, to, begin, stop, out);
        return;
    }
    write_others(starts, ends, steps, count, from, to, begin, stop, out);
}
