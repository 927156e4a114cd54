// Whether a column can be asked at all: `find` refuses one that does not rise, and `check` says so.
use loftsplice::scan::{Made, Scan};
use meaning::Answer;

// What a seek from the least number on answers: it is refused where an element is not above the one before.
pub fn order(starts: &[i64], ends: &[u64], steps: &[i16]) -> Answer {
    match Scan::new(starts, ends, steps) {
        Made::Refused(why) => Answer::Refused(why),
        Made::Ready(scan) => {
            let moved = scan.seek(starts, ends, steps, -9223372036854775808);
            moved.answer
        }
    }
}
