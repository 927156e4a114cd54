// A seek of a scan that is sound for its column: the order of its window, the part of it that is looked at, and the move.
ghost use Rattle.std.specs.Prelude.{◌≡◌, ℕ, ◌≤◌, true, false};
ghost use Rattle.std.proofs.Math.Option.{none};
ghost use Rattle.meaning.specs.Refusals.{Gives};
ghost use Rattle.meaning.specs.Column.{size_of, sequence_of, sound};
ghost use Rattle.meaning.specs.Naming.{column_now, sequence};
ghost use Rattle.loftsplice.specs.declared.scan.State.TheVariants.{At};
ghost use Rattle.loftsplice.specs.Scan.{outcome_of, standing, seek_from, bad_scan};
ghost use Rattle.loftsplice.specs.Inner.{Lies, Stood, Ready, on_order};

use crate::rising::rising;
use crate::rle::Spot;
use crate::scan::{Moved, Scan, State, go_to, refused};
use crate::seeking::{Window, seek_spot, window_of};
use meaning::{Answer, Refusal};

// The part of a scan's window that a seek looks at: "from the current index (fresh: from the window's start)"; nothing of it when ended.
pub(crate) fn rest_of(ends: &[u64], scan: Scan, at: Spot, window: Window) -> Window
    requires index_value { (window.from.index ≡ scan.start) × (window.end ≡ scan.end) }
    requires lies { Lies ends.now window.from.index window.from.place window.end window.last }
    requires by_index { (i : ℕ) → scan.state ≡ At i → scan.start ≤ i }
    requires stood { Stood ends.now scan.state at.index at.place }
    ensures index_value_2 { (result.from.index ≡ standing scan scan.state) × (result.end ≡ scan.end) }
    ensures lies_2 { Lies ends.now result.from.index result.from.place result.end result.last }
{
    let end = scan.end;
    let state = scan.state;
    let last = window.last;
    match state {
        State::Fresh => window,
        State::At(_) => Window {
            from: at,
            end,
            last,
        },
        State::Ended => {
            let place = at.place;
            let from = Spot { index: end, place };
            Window { from, end, last }
        }
    }
}

// "to the first index whose element is not below the target"
pub(crate) fn seek_in(
    scan: Scan,
    starts: &[i64],
    ends: &[u64],
    steps: &[i16],
    rest: Window,
    target: i64,
) -> Moved
    requires { Ready (column_now starts ends steps) scan rest.from.index rest.from.place rest.end rest.last }
    ensures { outcome_of result ≡ seek_from (sequence starts ends steps) target scan scan.state }
{
    let to = seek_spot(starts, ends, steps, rest, target);
    go_to(scan, starts, ends, steps, to)
}

// A seek of a scan that is sound for its column: refused 7, or moved.
pub(crate) fn seek_ordered(
    scan: Scan,
    starts: &[i64],
    ends: &[u64],
    steps: &[i16],
    at: Spot,
    target: i64,
) -> Moved
    requires steps_value { sound (column_now starts ends steps) ≡ true }
    requires scan_value { bad_scan (sequence_of (column_now starts ends steps)) scan ≡ false }
    requires stood { Stood ends.now scan.state at.index at.place }
    ensures { outcome_of result ≡ on_order (sequence starts ends steps) scan (seek_from (sequence starts ends steps) target scan scan.state) }
{
    let window = window_of(ends, scan.start, scan.end);
    if !rising(starts, ends, steps, window) {
        return refused(scan, Refusal::Order);
    }
    let rest = rest_of(ends, scan, at, window);
    seek_in(scan, starts, ends, steps, rest, target)
}

// "it looks at the whole window, also for an ended scan", which stays where it is: refused 7, or none.
pub(crate) fn stay_ordered(scan: Scan, starts: &[i64], ends: &[u64], steps: &[i16]) -> Moved
    requires steps_value { sound (column_now starts ends steps) ≡ true }
    requires end_bound { scan.end ≤ size_of (column_now starts ends steps) }
    ensures { outcome_of result ≡ on_order (sequence starts ends steps) scan (record { scan = scan; said = Gives none }) }
{
    let whole = window_of(ends, scan.start, scan.end);
    if !rising(starts, ends, steps, whole) {
        return refused(scan, Refusal::Order);
    }
    Moved {
        scan,
        answer: Answer::None,
    }
}

// A seek of a scan that is sound for its column, in whatever state: an ended one stays.
pub(crate) fn seek_from(
    scan: Scan,
    starts: &[i64],
    ends: &[u64],
    steps: &[i16],
    at: Spot,
    target: i64,
) -> Moved
    requires steps_value { sound (column_now starts ends steps) ≡ true }
    requires scan_value { bad_scan (sequence_of (column_now starts ends steps)) scan ≡ false }
    requires stood { Stood ends.now scan.state at.index at.place }
    ensures { outcome_of result ≡ on_order (sequence starts ends steps) scan (seek_from (sequence starts ends steps) target scan scan.state) }
{
    let state = scan.state;
    if let State::Ended = state {
        return stay_ordered(scan, starts, ends, steps);
    }
    seek_ordered(scan, starts, ends, steps, at, target)
}
