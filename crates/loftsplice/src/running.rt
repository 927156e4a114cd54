// A run of nexts in one call: as many moves of a scan as an output has places, behind one check of its column. Where a run of seeks begins is a call of
// its own, total as all are, so that the run itself can live in a crate of its own, `run_calls`.
ghost use Rattle.std.specs.Prelude.{◌≡◌, ℕ, ◌<◌, ◌≤◌, true, false, length};
ghost use Rattle.meaning.specs.Refusals.{Gives};
ghost use Rattle.meaning.specs.Column.{size_of, sequence_of, sound};
ghost use Rattle.meaning.specs.Naming.{column, column_now, sequence, source};
ghost use Rattle.loftsplice.specs.declared.scan.State.TheVariants.{At};
ghost use Rattle.loftsplice.specs.Scan.{bad_scan};
ghost use Rattle.loftsplice.specs.Running.{nexts_from, tally_of, counted, next_run_of, next_run_out, says_footed, footing_at, footing_of};
ghost use Rattle.loftsplice.specs.Inner.{Lies, ahead, filled_by};

use crate::rising::rising;
use crate::rle::{Spot, element_at, place_of};
use crate::scan::{Carried, Scan, State};
use crate::seek::rest_of;
use crate::seeking::{Window, window_of};
use crate::standing::check_scan;
use crate::stretch::write_stretch;
use checked::Checked;
use meaning::Refusal;

// The number of values, or a refusal.
#[derive(Clone, Copy)]
pub enum Counted {
    Values(u64),
    Refused(Refusal),
}

// The scan after a run of calls, and the number of values.
#[derive(Clone, Copy)]
pub struct Ran {
    pub scan: Scan,
    pub counted: Counted,
}

// Where a run of seeks begins: an index, its run and its element; and of the window's last index the run and the element, which no answer is above.
#[derive(Clone, Copy)]
pub struct Footing {
    pub index: u64,
    pub run: usize,
    pub value: i64,
    pub last: usize,
    pub most: i64,
}

// A footing; none, past the window; or a refusal.
#[derive(Clone, Copy)]
pub enum Footed {
    On(Footing),
    Past,
    Refused(Refusal),
}

// The index to which the next goes, if it is before the window's end.
fn ahead_of(scan: Scan) -> u64
    requires { (i : ℕ) → scan.state ≡ At i → i < 4294967295 }
    ensures { result ≡ ahead scan scan.state }
{
    let start = scan.start;
    let end = scan.end;
    let state = scan.state;
    match state {
        State::Fresh => start,
        State::At(index) => index + 1,
        State::Ended => end,
    }
}

// As many nexts as the output has places. Where it has one more than there are elements, the last of them is the none that ends the scan.
fn nexts_in(scan: Scan, starts: &[i64], ends: &[u64], steps: &[i16], out: &mut [i64]) -> Ran
    requires steps_value { sound (column_now starts ends steps) ≡ true }
    requires scan_value { bad_scan (sequence_of (column_now starts ends steps)) scan ≡ false }
    ensures result_value { tally_of result ≡ counted (nexts_from (sequence starts ends steps) (length out.old) scan) }
    ensures out_after { out.new ≡ filled_by (nexts_from (sequence starts ends steps) (length out.old) scan) out.old }
{
    let places = out.len() as u64;
    let start = scan.start;
    let end = scan.end;
    if places == 0 {
        return Ran {
            scan,
            counted: Counted::Values(0),
        };
    }
    let first = ahead_of(scan);
    if end <= first {
        return Ran {
            scan: Scan {
                start,
                end,
                state: State::Ended,
                value: Carried::None,
            },
            counted: Counted::Values(0),
        };
    }
    let left = end - first;
    if left < places {
        write_stretch(starts, ends, steps, first, end, out);
        return Ran {
            scan: Scan {
                start,
                end,
                state: State::Ended,
                value: Carried::None,
            },
            counted: Counted::Values(left),
        };
    }
    write_stretch(starts, ends, steps, first, first + places, out);
    let value = out[out.len() - 1];
    Ran {
        scan: Scan {
            start,
            end,
            state: State::At(first + (places - 1)),
            value: Carried::Value(value),
        },
        counted: Counted::Values(places),
    }
}

// As many nexts as the output has places, up to the first none; or refused 1, 2, 3, 6.
pub fn next_run(scan: Scan, starts: &[i64], ends: &[u64], steps: &[i16], out: &mut [i64]) -> Ran
    ensures result_value { tally_of result ≡ next_run_of (source starts ends steps) (length out.old) scan }
    ensures out_after { out.new ≡ next_run_out (source starts ends steps) out.old scan }
{
    let stand = check_scan(scan, starts, ends, steps);
    let checked = stand.checked;
    match checked {
        Checked::Refused(why) => Ran {
            scan,
            counted: Counted::Refused(why),
        },
        Checked::Fine => nexts_in(scan, starts, ends, steps, out),
    }
}

// The footing in what is left of a window.
fn footing_in(starts: &[i64], ends: &[u64], steps: &[i16], rest: Window) -> Footed
    requires steps_value { sound (column_now starts ends steps) ≡ true }
    requires end_bound { rest.end ≤ size_of (column_now starts ends steps) }
    requires lies { Lies ends.now rest.from.index rest.from.place rest.end rest.last }
    ensures { says_footed result ≡ Gives (footing_at (column starts ends steps) rest.from.index rest.end) }
{
    let from = rest.from;
    let end = rest.end;
    let last = rest.last;
    if end <= from.index {
        return Footed::Past;
    }
    let value = element_at(starts, ends, steps, from);
    let index = end - 1;
    let place = place_of(ends, last, index);
    let most = element_at(starts, ends, steps, Spot { index, place });
    Footed::On(Footing {
        index: from.index,
        run: from.place.run,
        value,
        last,
        most,
    })
}

// Where a run of seeks of a scan begins; or refused 1, 2, 3, 6, 7, as a seek.
pub fn find_footing(scan: Scan, starts: &[i64], ends: &[u64], steps: &[i16]) -> Footed
    ensures { says_footed result ≡ footing_of (column starts ends steps) scan }
{
    let start = scan.start;
    let end = scan.end;
    let stand = check_scan(scan, starts, ends, steps);
    let checked = stand.checked;
    match checked {
        Checked::Refused(why) => Footed::Refused(why),
        Checked::Fine => {
            let window = window_of(ends, start, end);
            if !rising(starts, ends, steps, window) {
                return Footed::Refused(Refusal::Order);
            }
            let at = stand.at;
            let rest = rest_of(ends, scan, at, window);
            footing_in(starts, ends, steps, rest)
        }
    }
}
