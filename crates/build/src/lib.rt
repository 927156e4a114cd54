// Runs from a plain list, by the rule of specs/Rule.antt. The runs are counted, and the room is tried, before anything is written.
#![tactic(auto)]

ghost use Rattle.std.specs.Prelude.{◌≡◌, ◌+◌, ◌<◌, ◌≤◌, min, true, length, ◌-ℤ◌};
ghost use Rattle.std.proofs.lemmas.List.Edits.{sets};
ghost use Rattle.keys.specs.Key.{unkey};
ghost use Rattle.keys.specs.Widths.{fits_in, half16};
ghost use Rattle.meaning.specs.Naming.{Leaves};
ghost use Rattle.meaning.specs.Sequence.{same_z};
ghost use Rattle.build.specs.Rule.{runs_of, built_from};
ghost use Rattle.build.specs.Inner.{value_at, first_at, open_at, Inside, RoomFor};
ghost use Rattle.build.specs.Says.{says_built, building};

use codec::unsigned64;
use keys::bias;
use meaning::Refusal;

// The run count, or a refusal.
#[derive(Clone, Copy)]
pub enum Built {
    Runs(usize),
    Refused(Refusal),
}

// Where a run ends, and its step.
#[derive(Clone, Copy)]
struct Stretch {
    end: usize,
    step: i16,
}

// Where two values have a step, 32,768 more than it, up to 65,535. Where they have none it is any number: a difference that wraps may look like a
// step. No jump hangs on which value is above, as one does in `diff_step`: in a list that goes up and down it would be guessed wrong.
fn near(previous: i64, current: i64) -> u64
    ensures { fits_in half16 (current -ℤ previous) ≡ true → (result ≤ 65535) × (unkey half16 result ≡ current -ℤ previous) }
{
    let difference = std::num::wrapping_sub_u64(unsigned64(current), unsigned64(previous));
    std::num::wrapping_add_u64(difference, 32768)
}

// Whether a value lies a step after another. The difference of the patterns may wrap; that it did not is told by which value is above.
fn continues(previous: i64, current: i64, step: i16) -> bool
    ensures { result ≡ same_z (current -ℤ previous) step }
{
    if std::num::wrapping_sub_u64(unsigned64(current), unsigned64(previous))
        != unsigned64(step as i64)
    {
        return false;
    }
    (previous <= current) == (0 <= step)
}

// Where a run that has begun at a, with two values and a step, ends: value by value.
fn end_plain(values: &[i64], a: usize, step: i16) -> usize
    requires { a + 2 ≤ length values.now }
    ensures value { result ≡ a + (open_at values.now a step (a + 2)).count }
    ensures upper_bound { result ≤ length values.now }
{
    let mut i = a + 2;
    while i < values.len() {
        if !continues(values[i - 1], values[i], step) {
            return i;
        }
        i += 1;
    }
    i
}

// The same by the patterns' difference alone: from a value that far inside, no run of a list comes to where a difference wraps.
fn end_inside(values: &[i64], a: usize, step: i16) -> usize
    requires a_in_bounds { a + 2 ≤ length values.now }
    requires values_len_bound { length values.now ≤ 4294967295 }
    requires inside { Inside (value_at values.now (a + 1)) }
    ensures value { result ≡ a + (open_at values.now a step (a + 2)).count }
    ensures upper_bound { result ≤ length values.now }
{
    let difference = unsigned64(step as i64);
    let mut i = a + 2;
    while i < values.len() {
        if std::num::wrapping_sub_u64(unsigned64(values[i]), unsigned64(values[i - 1]))
            != difference
        {
            return i;
        }
        i += 1;
    }
    i
}

// Whether a value lies 2^62 or more from the edges of the i64s.
fn inside(x: i64) -> bool
    ensures { result ≡ true → Inside x }
{
    let k = bias(x);
    if k < 4611686018427387904 {
        return false;
    }
    k <= 13835058055282163712
}

// Where it ends, by whichever will do.
fn end_of(values: &[i64], a: usize, step: i16) -> usize
    requires a_in_bounds { a + 2 ≤ length values.now }
    requires values_len_bound { length values.now ≤ 4294967295 }
    ensures value { result ≡ a + (open_at values.now a step (a + 2)).count }
    ensures upper_bound { result ≤ length values.now }
{
    let second = values[a + 1];
    if inside(second) {
        return end_inside(values, a, step);
    }
    end_plain(values, a, step)
}

// The run that begins at a.
fn run_at(values: &[i64], a: usize) -> Stretch
    requires { (a < length values.now) × (length values.now ≤ 4294967295) }
    ensures end_value { result.end ≡ a + (first_at values.now a).count }
    ensures step_value { result.step ≡ (first_at values.now a).step }
    ensures end_in_bounds { result.end ≤ length values.now }
{
    let next = a + 1;
    let alone = Stretch { end: next, step: 0 };
    if next == values.len() {
        return alone;
    }
    let shifted = near(values[a], values[next]);
    if 65535 < shifted {
        return alone;
    }
    let step = ((shifted as i64) - 32768) as i16;
    if !continues(values[a], values[next], step) {
        return alone;
    }
    let end = end_of(values, a, step);
    Stretch {
        end: end,
        step: step,
    }
}

// How many runs the rule needs; 4097 if it needs more than 4096, and then no more of the list is read.
fn count_runs(values: &[i64]) -> usize
    requires { length values.now ≤ 4294967295 }
    ensures { result ≡ min (length (runs_of values.now)) 4097 }
{
    let mut n = 0;
    let mut i = 0;
    while i < values.len() {
        if n == 4097 {
            return n;
        }
        let run = run_at(values, i);
        i = run.end;
        n += 1;
    }
    n
}

// The runs, into the first places of the three arrays.
fn write_runs(values: &[i64], starts: &mut [i64], ends: &mut [u64], steps: &mut [i16])
    requires values_len_bound { length values.now ≤ 4294967295 }
    requires room_for { RoomFor values starts ends steps }
    ensures starts_after { starts.new ≡ sets starts.old 0 (built_from values.now).starts }
    ensures ends_after { ends.new ≡ sets ends.old 0 (built_from values.now).ends }
    ensures steps_after { steps.new ≡ sets steps.old 0 (built_from values.now).steps }
{
    let mut n = 0;
    let mut i = 0;
    while i < values.len() {
        let run = run_at(values, i);
        let step = run.step;
        let end = run.end;
        starts[n] = values[i];
        ends[n] = end as u64;
        steps[n] = step;
        i = end;
        n += 1;
    }
}

// Document 02, request 1: the runs of a plain list, into the first places of the three arrays, which may differ in length.
pub fn build(values: &[i64], starts: &mut [i64], ends: &mut [u64], steps: &mut [i16]) -> Built
    ensures result_value { says_built result ≡ building values starts ends steps }
    ensures leaves { Leaves starts (says_built result) (built_from values.now).starts }
    ensures leaves_2 { Leaves ends (says_built result) (built_from values.now).ends }
    ensures leaves_3 { Leaves steps (says_built result) (built_from values.now).steps }
{
    if 4294967295 < values.len() {
        return Built::Refused(Refusal::Shape);
    }
    let n = count_runs(values);
    if 4096 < n {
        return Built::Refused(Refusal::Shape);
    }
    if starts.len() < n {
        return Built::Refused(Refusal::Room);
    }
    if ends.len() < n {
        return Built::Refused(Refusal::Room);
    }
    if steps.len() < n {
        return Built::Refused(Refusal::Room);
    }
    write_runs(values, starts, ends, steps);
    Built::Runs(n)
}
