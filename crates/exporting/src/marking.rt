// Records marked as present in a bitmap: one by one, a step apart, or whole bytes where the step is 1.
ghost use Rattle.std.specs.Prelude.{◌≡◌, true, ◌&&◌, ◌+◌, ◌*◌, ◌≤◌, ◌<◌, ◌/◌, ◌%◌, eqb, length, replicate};
ghost use Rattle.meaning.specs.Column.{sound};
ghost use Rattle.meaning.specs.Naming.{column_now, sequence};
ghost use Rattle.bits.specs.Bitmap.{is_set};
ghost use Rattle.recorded.specs.Records.{carries_record};
ghost use Rattle.recorded.specs.Inner.{in_steps, all_fit};
ghost use Rattle.exporting.specs.Inner.{in_span, Marked, Inside};

use keys::{bias, size16};

// Record at is present from now on.
fn set_bit(bytes: &mut [u8], at: usize)
    requires { at < 8 * length bytes.old }
    ensures { Marked bytes.old bytes.new (λ i. eqb i at) }
{
    let j = at >> 3;
    bytes[j] |= 1u8 << (at & 7);
}

// The n records start, start + step, .. are present from now on.
fn set_steps(bytes: &mut [u8], start: usize, step: usize, n: usize)
    requires { Inside bytes.old start step n }
    ensures { Marked bytes.old bytes.new (in_steps start step n) }
{
    let mut at = start;
    let mut k = 0;
    while k < n {
        set_bit(bytes, at);
        at += step;
        k += 1;
    }
}

// Byte j takes the ones of a mask.
fn or_at(bytes: &mut [u8], j: usize, mask: u8)
    requires { j < length bytes.old }
    ensures { Marked bytes.old bytes.new (λ i. eqb (i / 8) j && is_set mask (i % 8)) }
{
    bytes[j] |= mask;
}

// The bytes from..to become all ones.
fn fill_whole(bytes: &mut [u8], from: usize, to: usize)
    requires { (from ≤ to) × (to ≤ length bytes.old) }
    ensures { Marked bytes.old bytes.new (in_span (8 * from) (8 * to)) }
{
    let mut j = from;
    while j < to {
        bytes[j] = 255;
        j += 1;
    }
}

// The records a..e are present from now on: whole bytes, and a mask at either end.
fn set_span(bytes: &mut [u8], a: usize, e: usize)
    requires { (a ≤ e) × (e ≤ 8 * length bytes.old) }
    ensures { Marked bytes.old bytes.new (in_span a e) }
{
    if a == e {
        return;
    }
    let first = a >> 3;
    let last = e >> 3;
    let from = 255u8 << (a & 7);
    let below = (1u8 << (e & 7)) - 1;
    if first == last {
        or_at(bytes, first, from & below);
        return;
    }
    or_at(bytes, first, from);
    fill_whole(bytes, first + 1, last);
    if below == 0 {
        return;
    }
    or_at(bytes, last, below);
}

// The n records start, start + step, .. are present from now on: by whole bytes where the step is 1.
fn set_run(bytes: &mut [u8], start: usize, step: usize, n: usize)
    requires { Inside bytes.old start step n }
    ensures { Marked bytes.old bytes.new (in_steps start step n) }
{
    if step == 1 {
        set_span(bytes, start, start + n);
        return;
    }
    set_steps(bytes, start, step, n);
}

// Nothing is present from now on.
pub(crate) fn clear(bytes: &mut [u8])
    ensures { bytes.new ≡ replicate (length bytes.old) 0 }
{
    let mut j = 0;
    while j < bytes.len() {
        bytes[j] = 0;
        j += 1;
    }
}

// The elements are present from now on, run by run.
pub(crate) fn mark_runs(starts: &[i64], ends: &[u64], steps: &[i16], count: u64, bytes: &mut [u8])
    requires steps_value { sound (column_now starts ends steps) ≡ true }
    requires count_value { all_fit (column_now starts ends steps) count ≡ true }
    requires count_bound { (count ≤ 524288) × (count ≤ 8 * length bytes.old) }
    ensures { Marked bytes.old bytes.new (carries_record (sequence starts ends steps)) }
{
    let mut low = 0u64;
    let mut r = 0;
    while r < ends.len() {
        let end = ends[r];
        let start = (bias(starts[r]) - 9223372036854775808) as usize;
        let step = size16(steps[r]) as usize;
        set_run(bytes, start, step, (end - low) as usize);
        low = end;
        r += 1;
    }
}
