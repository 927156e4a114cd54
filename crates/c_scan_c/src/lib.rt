// The static library of crate c_scan: the functions that C calls, each of which calls the one of that name there.
#![tactic(auto)]

ghost use Rattle.std.specs.Prelude.{◌≡◌};
ghost use Rattle.meaning.specs.Naming.{source};
ghost use Rattle.loftsplice.specs.Scan.{new_of, next_of, seek_of, narrow_of, reset_of, current_of, pos_of};
ghost use Rattle.c_forms.specs.Answer.{flat_answer};
ghost use Rattle.c_scan.specs.Scan.{call_scan, ask_scan, flat_position, flat_new_scan};

use c_forms::answers::FlatAnswer;
use c_forms::scans::FlatScan;
use c_scan::{FlatMoved, FlatNewScan, FlatPosition};

// "A new scan has the whole column"; or refused 1, 2, 3.
#[unsafe(no_mangle)]
pub extern "C" fn loftsplice_scan_new(starts: &[i64], ends: &[u64], steps: &[i16]) -> FlatNewScan
    ensures { result ≡ flat_new_scan (new_of (source starts ends steps)) }
{
    c_scan::loftsplice_scan_new(starts, ends, steps)
}

// The next element, or none; or refused 100, 1, 2, 3, 6.
#[unsafe(no_mangle)]
pub extern "C" fn loftsplice_scan_next(
    scan: FlatScan,
    starts: &[i64],
    ends: &[u64],
    steps: &[i16],
) -> FlatMoved
    ensures { result ≡ call_scan scan (next_of (source starts ends steps)) }
{
    c_scan::loftsplice_scan_next(scan, starts, ends, steps)
}

// The first element from the current index on that is not below the target, or none; or refused 100, 1, 2, 3, 6, 7.
#[unsafe(no_mangle)]
pub extern "C" fn loftsplice_scan_seek(
    scan: FlatScan,
    starts: &[i64],
    ends: &[u64],
    steps: &[i16],
    target: i64,
) -> FlatMoved
    ensures { result ≡ call_scan scan (seek_of (source starts ends steps) target) }
{
    c_scan::loftsplice_scan_seek(scan, starts, ends, steps, target)
}

// Another window, before its first element; or refused 100, 1, 2, 3, 6, 5.
#[unsafe(no_mangle)]
pub extern "C" fn loftsplice_scan_narrow(
    scan: FlatScan,
    starts: &[i64],
    ends: &[u64],
    steps: &[i16],
    start: u64,
    end: u64,
) -> FlatMoved
    ensures { result ≡ call_scan scan (narrow_of (source starts ends steps) start end) }
{
    c_scan::loftsplice_scan_narrow(scan, starts, ends, steps, start, end)
}

// The same window, before its first element; or refused 100, 1, 2, 3, 6.
#[unsafe(no_mangle)]
pub extern "C" fn loftsplice_scan_reset(
    scan: FlatScan,
    starts: &[i64],
    ends: &[u64],
    steps: &[i16],
) -> FlatMoved
    ensures { result ≡ call_scan scan (reset_of (source starts ends steps)) }
{
    c_scan::loftsplice_scan_reset(scan, starts, ends, steps)
}

// What the scan carries, or none; or refused 100, 6. It looks at no column.
#[unsafe(no_mangle)]
pub extern "C" fn loftsplice_scan_current(scan: FlatScan) -> FlatAnswer
    ensures { result ≡ flat_answer (ask_scan scan current_of) }
{
    c_scan::loftsplice_scan_current(scan)
}

// The index when at one, else none; or refused 100, 1, 2, 3, 6.
#[unsafe(no_mangle)]
pub extern "C" fn loftsplice_scan_pos(
    scan: FlatScan,
    starts: &[i64],
    ends: &[u64],
    steps: &[i16],
) -> FlatPosition
    ensures { result ≡ flat_position (ask_scan scan (pos_of (source starts ends steps))) }
{
    c_scan::loftsplice_scan_pos(scan, starts, ends, steps)
}
