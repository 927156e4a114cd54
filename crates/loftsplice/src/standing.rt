// Whether a scan is sound for a column, 6 SCAN, and where it stands.
ghost use Rattle.std.specs.Prelude.{◌≡◌, ◌<◌, true, not};
ghost use Rattle.std.proofs.Math.Option.{some, none};
ghost use Rattle.meaning.specs.Refusals.{Gives, Number, fine, judged};
ghost use Rattle.meaning.specs.Column.{size_of, element_at, sound};
ghost use Rattle.meaning.specs.Naming.{column, column_now, sequence, source};
ghost use Rattle.checked.specs.Says.{says_checked};
ghost use Rattle.loftsplice.specs.declared.scan.State.TheVariants.{At};
ghost use Rattle.loftsplice.specs.Scan.{carried_by, same_value, bad_scan, on_scan};
ghost use Rattle.loftsplice.specs.Inner.{Stood, off_if};

use crate::rle::{Spot, element_at, end_before, place_in};
use crate::scan::{Carried, Scan, State};
use checked::{Checked, check};
use meaning::{Place, Refusal};

// A scan that was looked at: fine or refused, and where it stands if it is fine and at an index.
#[derive(Clone, Copy)]
pub(crate) struct Stand {
    pub(crate) checked: Checked,
    pub(crate) at: Spot,
}

// At no index.
fn nowhere(checked: Checked) -> Stand
    ensures { result.checked ≡ checked }
{
    let place = Place {
        run: 0,
        offset: 0,
        follows: 0,
    };
    let at = Spot { index: 0, place };
    Stand { checked, at }
}

// Fine, or refused 6 because "a value is there when fresh or ended".
fn check_none(value: Carried) -> Stand
    ensures { says_checked result.checked ≡ off_if (not (same_value (carried_by value) none)) }
{
    match value {
        Carried::Value(_) => nowhere(Checked::Refused(Refusal::Scan)),
        Carried::None => nowhere(Checked::Fine),
    }
}

// Fine, or refused 6 because the value is "missing at an index" or "is not the column's element at that index".
fn check_value(value: Carried, starts: &[i64], ends: &[u64], steps: &[i16], index: u64) -> Stand
    requires steps_value { sound (column_now starts ends steps) ≡ true }
    requires index_bound { index < size_of (column_now starts ends steps) }
    ensures checked_value { says_checked result.checked ≡ off_if (not (same_value (carried_by value) (some (element_at (column starts ends steps) index)))) }
    ensures stood { says_checked result.checked ≡ Gives fine → Stood ends.now (At index) result.at.index result.at.place }
{
    let Carried::Value(held) = value else {
        return nowhere(Checked::Refused(Refusal::Scan));
    };
    let place = place_in(ends, index);
    let at = Spot { index, place };
    if element_at(starts, ends, steps, at) != held {
        return nowhere(Checked::Refused(Refusal::Scan));
    }
    Stand {
        checked: Checked::Fine,
        at,
    }
}

// Of a sound column: fine, or refused 6. It is apart from the check, so that a next and a seek compile it in: handed on through memory, a scan
// and its stand cost more than they take to find out.
pub(crate) fn stand_in(scan: Scan, starts: &[i64], ends: &[u64], steps: &[i16]) -> Stand
    requires { sound (column_now starts ends steps) ≡ true }
    ensures checked_value { says_checked result.checked ≡ off_if (bad_scan (sequence starts ends steps) scan) }
    ensures stood { says_checked result.checked ≡ Gives fine → Stood ends.now scan.state result.at.index result.at.place }
{
    let start = scan.start;
    let end = scan.end;
    let state = scan.state;
    let value = scan.value;
    if end_before(ends, ends.len()) < end {
        return nowhere(Checked::Refused(Refusal::Scan));
    }
    match state {
        State::Fresh => check_none(value),
        State::At(index) => {
            if index < start {
                return nowhere(Checked::Refused(Refusal::Scan));
            }
            if end <= index {
                return nowhere(Checked::Refused(Refusal::Scan));
            }
            check_value(value, starts, ends, steps, index)
        }
        State::Ended => check_none(value),
    }
}

// Fine, or refused 1, 2, 3, 6.
pub(crate) fn check_scan(scan: Scan, starts: &[i64], ends: &[u64], steps: &[i16]) -> Stand
    ensures checked_value { says_checked result.checked ≡ judged Number (on_scan (source starts ends steps) scan) (Gives fine) }
    ensures stood { says_checked result.checked ≡ Gives fine → Stood ends.now scan.state result.at.index result.at.place }
{
    let checked = check(starts, ends, steps);
    match checked {
        Checked::Refused(why) => nowhere(Checked::Refused(why)),
        Checked::Fine => stand_in(scan, starts, ends, steps),
    }
}
