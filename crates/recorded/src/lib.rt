// Document 02, requests 3 and 7: whether a column holds record numbers, of count records, each above the one before. Total, so that export and
// the reading profiles both stand on it.
#![tactic(auto)]

ghost use Rattle.std.specs.Prelude.{◌≡◌, true};
ghost use Rattle.meaning.specs.Column.{sound};
ghost use Rattle.meaning.specs.Naming.{column_now, source};
ghost use Rattle.checked.specs.Says.{says_checked};
ghost use Rattle.recorded.specs.Records.{records_of};

use crate::placing::{fits, ordered};
use checked::{Checked, check};
use meaning::Refusal;

pub mod placing;

// The check of a sound column: refused 7, 15, or fine. Which of the two is asked only where one is given.
fn check_sound(starts: &[i64], ends: &[u64], steps: &[i16], count: u64) -> Checked
    requires { sound (column_now starts ends steps) ≡ true }
    ensures { says_checked result ≡ records_of (source starts ends steps) count }
{
    if fits(starts, ends, steps, count) {
        return Checked::Fine;
    }
    if ordered(starts, ends, steps) {
        return Checked::Refused(Refusal::Range);
    }
    Checked::Refused(Refusal::Order)
}

// Whether a column is sound, rises, and holds record numbers alone, of any count of records; or refused 1, 2, 3, 7, 15.
pub fn check_records(starts: &[i64], ends: &[u64], steps: &[i16], count: u64) -> Checked
    ensures { says_checked result ≡ records_of (source starts ends steps) count }
{
    match check(starts, ends, steps) {
        Checked::Refused(why) => Checked::Refused(why),
        Checked::Fine => check_sound(starts, ends, steps, count),
    }
}
