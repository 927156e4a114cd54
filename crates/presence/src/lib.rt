// Which of some numbers a column carries, in any order: a run of seeks for each stretch of numbers that do not fall, so that a sorted list costs one
// check of the column for 512 numbers.
#![tactic(auto)]

ghost use Rattle.std.specs.Prelude.{◌≡◌, true, ◌≤◌, ◌<◌, length};
ghost use Rattle.meaning.specs.Refusals.{Gives};
ghost use Rattle.meaning.specs.Column.{end_before};
ghost use Rattle.meaning.specs.Naming.{Leaves, sequence, source};
ghost use Rattle.checked.specs.Says.{says_checked};
ghost use Rattle.loftsplice.specs.Scan.{says_position, fresh};
ghost use Rattle.theorems.specs.Audit.{ascending};
ghost use Rattle.presence.specs.Presence.{flags_of, carried_of, sought_at};
ghost use Rattle.presence.specs.Inner.{Stretch, mark_at, marks};

use checked::Checked;
use loftsplice::running::{Counted, Footed, find_footing};
use loftsplice::scan::{Carried, Position, Scan, State};
use meaning::Refusal;
use run_calls::seek_run;

// A new scan, made without a check: each run of seeks checks its column.
fn whole(ends: &[u64]) -> Scan
    ensures { result ≡ fresh 0 (end_before ends.now (length ends.now)) }
{
    let end = if ends.len() == 0 {
        0
    } else {
        ends[ends.len() - 1]
    };
    Scan {
        start: 0,
        end,
        state: State::Fresh,
        value: Carried::None,
    }
}

// How many of the first numbers do not fall: only then a seek that was answered otherwise, or not at all, has passed no element that is the number.
fn stretch(numbers: &[i64]) -> usize
    ensures { Stretch numbers.now result }
{
    let n = numbers.len();
    if n == 0 {
        return 0;
    }
    let mut k = 1;
    while k < n && k < 512 {
        let last = numbers[k - 1];
        let number = numbers[k];
        if number < last {
            return k;
        }
        k += 1;
    }
    k
}

// The flag of a number that was sought in a run: one beyond the values was answered none.
fn flag(numbers: &[i64], values: &[i64], given: usize, k: usize) -> u8
    requires { (given ≤ length values.now) × (k < length numbers.now) }
    ensures { result ≡ mark_at numbers.now values.now given k }
{
    if given <= k {
        return 0;
    }
    let value = values[k];
    let number = numbers[k];
    if value == number { 1 } else { 0 }
}

// The flags of numbers that were sought in one run.
fn mark(numbers: &[i64], values: &[i64], given: usize, flags: &mut [u8])
    requires { (given ≤ length values.now) × (length numbers.now ≤ length flags.old) }
    ensures { flags.new ≡ marks numbers.now values.now given flags.old }
{
    let mut k = 0;
    while k < numbers.len() {
        flags[k] = flag(numbers, values, given, k);
        k += 1;
    }
}

// The flags of numbers that do not fall, by one run of seeks; or refused 1, 2, 3, 7.
fn carried_in(
    starts: &[i64],
    ends: &[u64],
    steps: &[i16],
    numbers: &[i64],
    flags: &mut [u8],
) -> Checked
    requires numbers_len_bound { (length numbers.now ≤ 512) × (length numbers.now ≤ length flags.old) }
    requires numbers_value { ascending numbers.now ≡ true }
    ensures result_value { says_checked result ≡ carried_of (source starts ends steps) numbers.now (length flags.old) }
    ensures leaves { Leaves flags (says_checked result) (flags_of (sequence starts ends steps) numbers.now) }
{
    let mut values = [0i64; 512];
    let scan = whole(ends);
    let ran = seek_run(scan, starts, ends, steps, numbers, &mut values);
    let counted = ran.counted;
    match counted {
        Counted::Refused(why) => Checked::Refused(why),
        Counted::Values(given) => {
            mark(numbers, &values, given as usize, flags);
            Checked::Fine
        }
    }
}

// Stretch by stretch. What is refused is the column, so the first stretch is refused or none is.
fn carried_all(
    starts: &[i64],
    ends: &[u64],
    steps: &[i16],
    numbers: &[i64],
    flags: &mut [u8],
) -> Checked
    requires { length numbers.now ≤ length flags.old }
    ensures result_value { says_checked result ≡ carried_of (source starts ends steps) numbers.now (length flags.old) }
    ensures leaves { Leaves flags (says_checked result) (flags_of (sequence starts ends steps) numbers.now) }
{
    let mut i = 0;
    loop {
        let n = stretch(&numbers[i..]);
        let part = carried_in(starts, ends, steps, &numbers[i..i + n], &mut flags[i..]);
        if let Checked::Refused(why) = part {
            return Checked::Refused(why);
        }
        i += n;
        if i == numbers.len() {
            return Checked::Fine;
        }
    }
}

// Refused 10, unless the column is refused before that.
fn no_room(starts: &[i64], ends: &[u64], steps: &[i16], numbers: &[i64], places: usize) -> Checked
    requires { places < length numbers.now }
    ensures { says_checked result ≡ carried_of (source starts ends steps) numbers.now places }
{
    let footed = find_footing(whole(ends), starts, ends, steps);
    match footed {
        Footed::Refused(why) => Checked::Refused(why),
        Footed::Past => Checked::Refused(Refusal::Room),
        Footed::On(_) => Checked::Refused(Refusal::Room),
    }
}

// A flag for each number, in any order: 1 if the column carries it, 0 if it is filled; or refused 1, 2, 3, 7, 10.
pub fn carried(
    starts: &[i64],
    ends: &[u64],
    steps: &[i16],
    numbers: &[i64],
    flags: &mut [u8],
) -> Checked
    ensures result_value { says_checked result ≡ carried_of (source starts ends steps) numbers.now (length flags.old) }
    ensures leaves { Leaves flags (says_checked result) (flags_of (sequence starts ends steps) numbers.now) }
{
    if flags.len() < numbers.len() {
        return no_room(starts, ends, steps, numbers, flags.len());
    }
    carried_all(starts, ends, steps, numbers, flags)
}

// The index at which a seek of a number by a new scan stands: that of the number, if it is carried. None where the seek answers none or is refused.
pub fn index(starts: &[i64], ends: &[u64], steps: &[i16], number: i64) -> Position
    ensures { says_position result ≡ Gives (sought_at (source starts ends steps) number) }
{
    let scan = whole(ends);
    let moved = scan.seek(starts, ends, steps, number);
    let at = moved.scan;
    let state = at.state;
    match state {
        State::At(index) => Position::Index(index),
        State::Fresh => Position::None,
        State::Ended => Position::None,
    }
}
