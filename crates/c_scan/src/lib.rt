// The C interface: the calls on a scan.
#![tactic(auto)]

ghost use Rattle.std.specs.Prelude.{◌≡◌};
ghost use Rattle.meaning.specs.Naming.{source};
ghost use Rattle.loftsplice.specs.Scan.{outcome_of, says_position, new_of, next_of, seek_of, narrow_of, reset_of, current_of, pos_of};
ghost use Rattle.c_forms.specs.Answer.{flat_answer};
ghost use Rattle.c_scan.specs.Scan.{flat_moved, call_scan, ask_scan, flat_position, flat_new_scan};

use c_forms::answers::{FlatAnswer, bad_form, flat_answer};
use c_forms::scans::{FlatScan, flat_scan, is_scan, no_scan, scan_of};
use loftsplice::refusal::number;
use loftsplice::scan::{Made, Moved, Position, Scan};
use meaning::Answer;

// A refusal's number and a scan that is none, or 0 and the scan.
#[repr(C)]
#[derive(Clone, Copy)]
pub struct FlatNewScan {
    pub refusal: u32,
    pub scan: FlatScan,
}

// "Its calls take the scan and hand it back with the answer"
#[repr(C)]
#[derive(Clone, Copy)]
pub struct FlatMoved {
    pub scan: FlatScan,
    pub answer: FlatAnswer,
}

// A refusal's number or 0; 1 and the index, or 0 and 0.
#[repr(C)]
#[derive(Clone, Copy)]
pub struct FlatPosition {
    pub refusal: u32,
    pub found: u32,
    pub index: u64,
}

// A refused call hands back the scan that came in.
fn flat_moved(given: FlatScan, moved: Moved) -> FlatMoved
    ensures { result ≡ flat_moved given (outcome_of moved) }
{
    let answer = moved.answer;
    let scan = moved.scan;
    let told = flat_answer(answer);
    match answer {
        Answer::Refused(_) => FlatMoved {
            scan: given,
            answer: told,
        },
        Answer::Value(_) => FlatMoved {
            scan: flat_scan(scan),
            answer: told,
        },
        Answer::None => FlatMoved {
            scan: flat_scan(scan),
            answer: told,
        },
    }
}

fn flat_position(position: Position) -> FlatPosition
    ensures { result ≡ flat_position (says_position position) }
{
    match position {
        Position::Index(index) => FlatPosition {
            refusal: 0,
            found: 1,
            index,
        },
        Position::None => FlatPosition {
            refusal: 0,
            found: 0,
            index: 0,
        },
        Position::Refused(why) => FlatPosition {
            refusal: number(why),
            found: 0,
            index: 0,
        },
    }
}

// "A new scan has the whole column"; or refused 1, 2, 3.
#[unsafe(no_mangle)]
pub extern "C" fn loftsplice_scan_new(starts: &[i64], ends: &[u64], steps: &[i16]) -> FlatNewScan
    ensures { result ≡ flat_new_scan (new_of (source starts ends steps)) }
{
    let made = Scan::new(starts, ends, steps);
    match made {
        Made::Ready(scan) => FlatNewScan {
            refusal: 0,
            scan: flat_scan(scan),
        },
        Made::Refused(why) => FlatNewScan {
            refusal: number(why),
            scan: no_scan(),
        },
    }
}

// The next element, or none; or refused 100, 1, 2, 3, 6.
#[unsafe(no_mangle)]
pub extern "C" fn loftsplice_scan_next(
    scan: FlatScan,
    starts: &[i64],
    ends: &[u64],
    steps: &[i16],
) -> FlatMoved
    ensures { result ≡ call_scan scan (next_of (source starts ends steps)) }
{
    if is_scan(scan) {
        let moved = scan_of(scan).next(starts, ends, steps);
        flat_moved(scan, moved)
    } else {
        let answer = bad_form();
        FlatMoved { scan, answer }
    }
}

// The first element from the current index on that is not below the target, or none; or refused 100, 1, 2, 3, 6, 7.
#[unsafe(no_mangle)]
pub extern "C" fn loftsplice_scan_seek(
    scan: FlatScan,
    starts: &[i64],
    ends: &[u64],
    steps: &[i16],
    target: i64,
) -> FlatMoved
    ensures { result ≡ call_scan scan (seek_of (source starts ends steps) target) }
{
    if is_scan(scan) {
        let moved = scan_of(scan).seek(starts, ends, steps, target);
        flat_moved(scan, moved)
    } else {
        let answer = bad_form();
        FlatMoved { scan, answer }
    }
}

// Another window, before its first element; or refused 100, 1, 2, 3, 6, 5.
#[unsafe(no_mangle)]
pub extern "C" fn loftsplice_scan_narrow(
    scan: FlatScan,
    starts: &[i64],
    ends: &[u64],
    steps: &[i16],
    start: u64,
    end: u64,
) -> FlatMoved
    ensures { result ≡ call_scan scan (narrow_of (source starts ends steps) start end) }
{
    if is_scan(scan) {
        let moved = scan_of(scan).narrow(starts, ends, steps, start, end);
        flat_moved(scan, moved)
    } else {
        let answer = bad_form();
        FlatMoved { scan, answer }
    }
}

// The same window, before its first element; or refused 100, 1, 2, 3, 6.
#[unsafe(no_mangle)]
pub extern "C" fn loftsplice_scan_reset(
    scan: FlatScan,
    starts: &[i64],
    ends: &[u64],
    steps: &[i16],
) -> FlatMoved
    ensures { result ≡ call_scan scan (reset_of (source starts ends steps)) }
{
    if is_scan(scan) {
        let moved = scan_of(scan).reset(starts, ends, steps);
        flat_moved(scan, moved)
    } else {
        let answer = bad_form();
        FlatMoved { scan, answer }
    }
}

// What the scan carries, or none; or refused 100, 6. It looks at no column.
#[unsafe(no_mangle)]
pub extern "C" fn loftsplice_scan_current(scan: FlatScan) -> FlatAnswer
    ensures { result ≡ flat_answer (ask_scan scan current_of) }
{
    if is_scan(scan) {
        flat_answer(scan_of(scan).current())
    } else {
        bad_form()
    }
}

// The index when at one, else none; or refused 100, 1, 2, 3, 6.
#[unsafe(no_mangle)]
pub extern "C" fn loftsplice_scan_pos(
    scan: FlatScan,
    starts: &[i64],
    ends: &[u64],
    steps: &[i16],
) -> FlatPosition
    ensures { result ≡ flat_position (ask_scan scan (pos_of (source starts ends steps))) }
{
    if is_scan(scan) {
        flat_position(scan_of(scan).pos(starts, ends, steps))
    } else {
        FlatPosition {
            refusal: 100,
            found: 0,
            index: 0,
        }
    }
}
