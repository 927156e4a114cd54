// Whether the elements of a column rise and are record numbers, run by run.
ghost use Rattle.std.specs.Prelude.{◌≡◌, true, ◌<◌};
ghost use Rattle.meaning.specs.Sequence.{rises};
ghost use Rattle.meaning.specs.Column.{size_of, sound};
ghost use Rattle.meaning.specs.Naming.{column, column_now, sequence};
ghost use Rattle.recorded.specs.Inner.{rises_by, climb_of, all_fit};

use keys::{bias, is_down, size16};
use loftsplice::scan::{Made, Scan};
use meaning::Answer;

// Whether a run with so many elements after its first rises.
fn goes_up(step: i16, more: u64) -> bool
    ensures { result ≡ rises_by step more }
{
    if more == 0 {
        return true;
    }
    if is_down(step) {
        return false;
    }
    size16(step) != 0
}

// One more than a run's last element, or 0 where the run begins below the floor, does not rise, or reaches the count.
fn climb(start: i64, step: i16, more: u64, floor: u64, count: u64) -> u64
    requires { more < 4294967296 }
    ensures { result ≡ climb_of start step more floor count }
{
    let from = bias(start);
    if from < 9223372036854775808 {
        return 0;
    }
    let first = from - 9223372036854775808;
    if first < floor {
        return 0;
    }
    if !goes_up(step, more) {
        return 0;
    }
    let last = first + size16(step) * more;
    if count <= last {
        return 0;
    }
    last + 1
}

// Whether all runs rise, one above the other, within the record numbers.
pub(crate) fn fits(starts: &[i64], ends: &[u64], steps: &[i16], count: u64) -> bool
    requires { sound (column_now starts ends steps) ≡ true }
    ensures { result ≡ all_fit (column starts ends steps) count }
{
    let mut floor = 0u64;
    let mut low = 0u64;
    let mut r = 0;
    while r < ends.len() {
        let end = ends[r];
        floor = climb(starts[r], steps[r], end - low - 1, floor, count);
        if floor == 0 {
            return false;
        }
        low = end;
        r += 1;
    }
    true
}

// Whether the column rises: a seek is refused where it does not. Asked only to tell 7 from 15.
pub(crate) fn ordered(starts: &[i64], ends: &[u64], steps: &[i16]) -> bool
    requires { sound (column_now starts ends steps) ≡ true }
    ensures { result ≡ rises (sequence starts ends steps) 0 (size_of (column starts ends steps)) }
{
    match Scan::new(starts, ends, steps) {
        Made::Refused(why) => false,
        Made::Ready(scan) => {
            let moved = scan.seek(starts, ends, steps, 0);
            let answer = moved.answer;
            match answer {
                Answer::Refused(why) => false,
                Answer::Value(v) => true,
                Answer::None => true,
            }
        }
    }
}
