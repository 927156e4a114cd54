// A run of seeks in one call: a seek of each target in turn, behind one check of the column. How many targets are answered is known first, by one
// comparison each; then it goes by runs: what a run's numbers answer is answered with these numbers alone.
#![tactic(auto)]

ghost use Rattle.std.specs.Prelude.{◌≡◌, false, ℕ, suc, ◌-◌, ◌≤◌, ◌<◌, pos, length, get_or};
ghost use Rattle.std.specs.Int.Signed.{lt_z};
ghost use Rattle.ranges.specs.Ranges.{first_from};
ghost use Rattle.meaning.specs.Column.{offset};
ghost use Rattle.meaning.specs.Naming.{column_now, sequence, source};
ghost use Rattle.meaning.proofs.Elements.{one_run};
ghost use Rattle.loftsplice.specs.Scan.{standing};
ghost use Rattle.loftsplice.specs.Running.{seeks_from, tally_of, seek_run_of, seek_run_out};
ghost use Rattle.run_calls.specs.Inner.{landed, written_by, reached, Strip, Hop, Hopped, Begun, out_of, room_for};

use keys::{bias, size16};
use loftsplice::running::{Counted, Footed, Footing, Ran, find_footing};
use loftsplice::scan::{Carried, Scan, State};
use loftsplice::seeking::smaller;
use meaning::Refusal;

// How many targets are answered: those before the first that is above the window's last element.
fn answered(targets: &[i64], most: i64) -> usize
    ensures { result ≡ reached most targets.now (length targets.now) }
{
    let mut k = 0;
    while k < targets.len() {
        let target = targets[k];
        if most < target {
            return k;
        }
        k += 1;
    }
    k
}

// The first run, from one on, whose next starts above the target, or the last.
fn walk(starts: &[i64], target: i64, from: usize, last: usize) -> usize
    requires { (from ≤ last) × (last < length starts.now) }
    ensures { result ≡ first_from (λ k. lt_z target (get_or starts.now (suc k) (pos 0))) from last }
{
    let mut run = from;
    while run < last {
        let start = starts[run + 1];
        if target < start {
            return run;
        }
        run += 1;
    }
    run
}

// Where seeks stand among the elements of one run: the place, and the element.
#[derive(Clone, Copy)]
struct Spot {
    at: u64,
    value: i64,
}

// A seek among elements a step apart, of which the last is not below the target: it stays, goes to the next, or by one division from the first.
fn hop(base: i64, step: i16, at: u64, value: i64, target: i64) -> Spot
    requires { Hop base step at value target }
    ensures { Hopped base step at target result.at result.value }
{
    if target <= value {
        return Spot { at, value };
    }
    let by = step as i64;
    let next = value + by;
    if target <= next {
        let near = at + 1;
        return Spot {
            at: near,
            value: next,
        };
    }
    let far = (bias(target) - bias(base) - 1) / size16(step) + 1;
    let found = base + by * (far as i64);
    Spot {
        at: far,
        value: found,
    }
}

// How many seeks were made, and the place where they stand.
#[derive(Clone, Copy)]
struct Sought {
    made: usize,
    at: u64,
}

// Seeks of targets among elements a step apart, from the first of them on, up to the first target that is above the last.
fn run_seeks(
    base: i64,
    step: i16,
    elements: u64,
    targets: &[i64],
    count: usize,
    out: &mut [i64],
) -> Sought
    requires strip { Strip base step elements }
    requires count_in_bounds { (count ≤ length targets.now) × (count ≤ length out.old) }
    ensures made_value { result.made ≡ reached (offset base step (elements - 1)) targets.now count }
    ensures at_value { result.at ≡ landed (one_run base step elements) elements targets.now 0 result.made }
    ensures out_after { out.new ≡ written_by (one_run base step elements) elements targets.now 0 result.made out.old }
{
    let by = step as i64;
    let last = base + by * ((elements - 1) as i64);
    let mut at = 0;
    let mut value = base;
    let mut k = 0;
    while k < count {
        let target = targets[k];
        if last < target {
            return Sought { made: k, at };
        }
        let spot = hop(base, step, at, value, target);
        at = spot.at;
        value = spot.value;
        out[k] = value;
        k += 1;
    }
    Sought { made: k, at }
}

// Writes what the first seeks give, each of which is answered, and says the index of the last. Each run is entered once: the first where the footing
// is, a later one at its start.
fn write_seeks(
    starts: &[i64],
    ends: &[u64],
    steps: &[i16],
    end: u64,
    footing: Footing,
    targets: &[i64],
    count: usize,
    out: &mut [i64],
) -> u64
    requires begun { Begun (column_now starts ends steps) end footing }
    requires count_in_bounds { (count ≤ length targets.now) × (count ≤ length out.old) }
    requires by_index { (k : ℕ) → k < count → lt_z footing.most (get_or targets.now k (pos 0)) ≡ false }
    ensures value { result ≡ landed (sequence starts ends steps) end targets.now footing.index count }
    ensures out_after { out.new ≡ written_by (sequence starts ends steps) end targets.now footing.index count out.old }
{
    let last = footing.last;
    let mut run = footing.run;
    let mut index = footing.index;
    let mut base = footing.value;
    let mut k = 0;
    let found = loop {
        let upto = smaller(end, ends[run]);
        let sought = run_seeks(
            base,
            steps[run],
            upto - index,
            &targets[k..],
            count - k,
            &mut out[k..],
        );
        k += sought.made;
        if k == count {
            break index + sought.at;
        }
        run = walk(starts, targets[k], run + 1, last);
        index = ends[run - 1];
        base = starts[run];
    };
    found
}

// A seek of each target in turn, from a footing on; refused where the output has fewer places than there are values.
fn seeks_from(
    scan: Scan,
    starts: &[i64],
    ends: &[u64],
    steps: &[i16],
    footing: Footing,
    targets: &[i64],
    out: &mut [i64],
) -> Ran
    requires begun { Begun (column_now starts ends steps) scan.end footing }
    requires index_value { footing.index ≡ standing scan scan.state }
    ensures result_value { tally_of result ≡ room_for (length out.old) scan (seeks_from (sequence starts ends steps) targets.now scan) }
    ensures out_after { out.new ≡ out_of (tally_of result) (seeks_from (sequence starts ends steps) targets.now scan) out.old }
{
    let start = scan.start;
    let end = scan.end;
    if targets.len() == 0 {
        return Ran {
            scan,
            counted: Counted::Values(0),
        };
    }
    let count = answered(targets, footing.most);
    if out.len() < count {
        return Ran {
            scan,
            counted: Counted::Refused(Refusal::Room),
        };
    }
    let index = write_seeks(starts, ends, steps, end, footing, targets, count, out);
    let values = count as u64;
    if count < targets.len() {
        return Ran {
            scan: Scan {
                start,
                end,
                state: State::Ended,
                value: Carried::None,
            },
            counted: Counted::Values(values),
        };
    }
    let value = out[count - 1];
    Ran {
        scan: Scan {
            start,
            end,
            state: State::At(index),
            value: Carried::Value(value),
        },
        counted: Counted::Values(values),
    }
}

// A seek of each target in turn, in any order, up to the first none; or refused 1, 2, 3, 6, 7, 10.
pub fn seek_run(
    scan: Scan,
    starts: &[i64],
    ends: &[u64],
    steps: &[i16],
    targets: &[i64],
    out: &mut [i64],
) -> Ran
    ensures result_value { tally_of result ≡ seek_run_of (source starts ends steps) targets.now (length out.old) scan }
    ensures out_after { out.new ≡ seek_run_out (source starts ends steps) targets.now out.old scan }
{
    let start = scan.start;
    let end = scan.end;
    let footed = find_footing(scan, starts, ends, steps);
    match footed {
        Footed::Refused(why) => Ran {
            scan,
            counted: Counted::Refused(why),
        },
        Footed::Past => {
            if targets.len() == 0 {
                return Ran {
                    scan,
                    counted: Counted::Values(0),
                };
            }
            Ran {
                scan: Scan {
                    start,
                    end,
                    state: State::Ended,
                    value: Carried::None,
                },
                counted: Counted::Values(0),
            }
        }
        Footed::On(footing) => seeks_from(scan, starts, ends, steps, footing, targets, out),
    }
}
