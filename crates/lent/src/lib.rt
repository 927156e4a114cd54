// The calls of a scan that is lent for writing and moved where it stands, as in the Rust: each is thin over the call by value of the same name.
// A refusal leaves the scan as lent. Above each is one with plain parameters, which lends a scan of its own: whoever calls that lends nothing.
#![tactic(auto)]

ghost use Rattle.std.specs.Prelude.{◌≡◌};
ghost use Rattle.meaning.specs.Naming.{source};
ghost use Rattle.loftsplice.specs.declared.scan.Move.TheVariants.{Next, Seek};
ghost use Rattle.loftsplice.specs.Scan.{outcome_of, next_of, seek_of, narrow_of, reset_of, Go, Narrow, Reset};
ghost use Rattle.lent.specs.Lending.{Lent};

use loftsplice::scan::{Moved, Scan};
use meaning::Answer;

// The next element, or none; or refused 1, 2, 3, 6: `Scan::next`, where the scan stands.
pub fn next(scan: &mut Scan, starts: &[i64], ends: &[u64], steps: &[i16]) -> Answer
    ensures { Lent (source starts ends steps) (Go Next) scan.old result scan.new }
{
    let s = *scan;
    let m = s.next(starts, ends, steps);
    *scan = m.scan;
    m.answer
}

// `next` on a scan that is lent here.
pub fn lend_next(scan: Scan, starts: &[i64], ends: &[u64], steps: &[i16]) -> Moved
    ensures { outcome_of result ≡ next_of (source starts ends steps) scan }
{
    let mut s = scan;
    let a = next(&mut s, starts, ends, steps);
    Moved { scan: s, answer: a }
}

// The first element from the current index on that is not below the target, or none; or refused 1, 2, 3, 6, 7: `Scan::seek`, where the scan stands.
pub fn seek(scan: &mut Scan, starts: &[i64], ends: &[u64], steps: &[i16], target: i64) -> Answer
    ensures { Lent (source starts ends steps) (Go (Seek target)) scan.old result scan.new }
{
    let s = *scan;
    let m = s.seek(starts, ends, steps, target);
    *scan = m.scan;
    m.answer
}

// `seek` on a scan that is lent here.
pub fn lend_seek(scan: Scan, starts: &[i64], ends: &[u64], steps: &[i16], target: i64) -> Moved
    ensures { outcome_of result ≡ seek_of (source starts ends steps) target scan }
{
    let mut s = scan;
    let a = seek(&mut s, starts, ends, steps, target);
    Moved { scan: s, answer: a }
}

// Another window, before its first element; or refused 1, 2, 3, 6, 5: `Scan::narrow`, where the scan stands.
pub fn narrow(
    scan: &mut Scan,
    starts: &[i64],
    ends: &[u64],
    steps: &[i16],
    start: u64,
    end: u64,
) -> Answer
    ensures { Lent (source starts ends steps) (Narrow start end) scan.old result scan.new }
{
    let s = *scan;
    let m = s.narrow(starts, ends, steps, start, end);
    *scan = m.scan;
    m.answer
}

// `narrow` on a scan that is lent here.
pub fn lend_narrow(
    scan: Scan,
    starts: &[i64],
    ends: &[u64],
    steps: &[i16],
    start: u64,
    end: u64,
) -> Moved
    ensures { outcome_of result ≡ narrow_of (source starts ends steps) start end scan }
{
    let mut s = scan;
    let a = narrow(&mut s, starts, ends, steps, start, end);
    Moved { scan: s, answer: a }
}

// The same window, before its first element; or refused 1, 2, 3, 6: `Scan::reset`, where the scan stands.
pub fn reset(scan: &mut Scan, starts: &[i64], ends: &[u64], steps: &[i16]) -> Answer
    ensures { Lent (source starts ends steps) Reset scan.old result scan.new }
{
    let s = *scan;
    let m = s.reset(starts, ends, steps);
    *scan = m.scan;
    m.answer
}

// `reset` on a scan that is lent here.
pub fn lend_reset(scan: Scan, starts: &[i64], ends: &[u64], steps: &[i16]) -> Moved
    ensures { outcome_of result ≡ reset_of (source starts ends steps) scan }
{
    let mut s = scan;
    let a = reset(&mut s, starts, ends, steps);
    Moved { scan: s, answer: a }
}
