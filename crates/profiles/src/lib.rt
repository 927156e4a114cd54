// Document 02, request 7: two reading profiles. A column lists the records that carry a field (profile 1), or those that leave it empty (profile 2).
// All is tried before anything is written.
#![tactic(auto)]

ghost use Rattle.std.specs.Prelude.{◌≡◌, ◌||◌, eqb};
ghost use Rattle.meaning.specs.Refusals.{Gives};
ghost use Rattle.meaning.specs.Naming.{column_now, sequence, source, Leaves};
ghost use Rattle.checked.specs.Says.{says_checked};
ghost use Rattle.profiles.specs.Profiles.{numbers_in, carrying_in, filled_in, profile_of, carries_of};
ghost use Rattle.profiles.specs.Says.{says_field, says_listed, carrying as carrying_said, filled as filled_said};
ghost use Rattle.profiles.specs.Inner.{Fits, sought, listing};

use crate::parts::{count_in, count_sought};
use crate::spans::span_of;
use crate::writing::write_sought;
use checked::Checked;
use meaning::Refusal;
use recorded::check_records;

pub mod parts;
pub mod spans;
pub mod writing;

// Whether a record carries the field, or a refusal.
#[derive(Clone, Copy)]
pub enum Field {
    Yes,
    No,
    Refused(Refusal),
}

// How many records were written, or a refusal.
#[derive(Clone, Copy)]
pub enum Listed {
    Records(u64),
    Refused(Refusal),
}

// Whether there is a profile of that number.
fn is_profile(profile: u8) -> bool
    ensures { result ≡ (eqb profile 1 || eqb profile 2) }
{
    if profile == 1 {
        return true;
    }
    profile == 2
}

// What the three calls try first: 16, 14, 1, 2, 3, 7, 15.
fn check_profile(profile: u8, count: u64, starts: &[i64], ends: &[u64], steps: &[i16]) -> Checked
    ensures { says_checked result ≡ profile_of profile count (source starts ends steps) }
{
    if !is_profile(profile) {
        return Checked::Refused(Refusal::Profile);
    }
    if 4294967295 < count {
        return Checked::Refused(Refusal::Count);
    }
    check_records(starts, ends, steps, count)
}

fn told(yes: bool) -> Field
    ensures { says_field result ≡ Gives yes }
{
    if yes {
        return Field::Yes;
    }
    Field::No
}

// Whether record number carries the field: an element does under profile 1, and every other record under profile 2. Refused 16, 14, 1, 2, 3, 7, 15, 4.
pub fn carries(
    profile: u8,
    count: u64,
    starts: &[i64],
    ends: &[u64],
    steps: &[i16],
    number: u64,
) -> Field
    ensures { says_field result ≡ carries_of profile count (source starts ends steps) number }
{
    match check_profile(profile, count, starts, ends, steps) {
        Checked::Refused(why) => Field::Refused(why),
        Checked::Fine => {
            if count <= number {
                return Field::Refused(Refusal::Index);
            }
            let after = number + 1;
            let span = span_of(starts, number, after);
            let n = count_in(
                starts, ends, steps, count, number, after, span.begin, span.stop,
            );
            if profile == 1 {
                return told(n == 1);
            }
            told(n == 0)
        }
    }
}

// The elements of a window, or its other records, of a column that passed its tests: refused 5, 10, or written.
fn list(
    here: bool,
    count: u64,
    starts: &[i64],
    ends: &[u64],
    steps: &[i16],
    start: u64,
    end: u64,
    out: &mut [u64],
) -> Listed
    requires { Fits (column_now starts ends steps) count }
    ensures result_value { says_listed result ≡ listing here count (sequence starts ends steps) start end out }
    ensures leaves { Leaves out (says_listed result) (numbers_in (sought here (sequence starts ends steps)) start end) }
{
    if count < end {
        return Listed::Refused(Refusal::Window);
    }
    if end <= start {
        return Listed::Records(0);
    }
    let span = span_of(starts, start, end);
    let n = count_sought(
        here, starts, ends, steps, count, start, end, span.begin, span.stop,
    );
    if (out.len() as u64) < n {
        return Listed::Refused(Refusal::Room);
    }
    let used = n as usize;
    write_sought(
        here,
        starts,
        ends,
        steps,
        count,
        start,
        end,
        span.begin,
        span.stop,
        &mut out[..used],
    );
    Listed::Records(n)
}

// The records of a window that carry the field, in order, and how many they are; or refused 16, 14, 1, 2, 3, 7, 15, 5, 10.
pub fn carrying(
    profile: u8,
    count: u64,
    starts: &[i64],
    ends: &[u64],
    steps: &[i16],
    start: u64,
    end: u64,
    out: &mut [u64],
) -> Listed
    ensures result_value { says_listed result ≡ carrying_said profile count (source starts ends steps) start end out }
    ensures leaves { Leaves out (says_listed result) (carrying_in profile (sequence starts ends steps) start end) }
{
    match check_profile(profile, count, starts, ends, steps) {
        Checked::Refused(why) => Listed::Refused(why),
        Checked::Fine => list(profile == 1, count, starts, ends, steps, start, end, out),
    }
}

// The records of a window that don't carry it, the filled ones, in order, and how many they are; refused as `carrying`.
pub fn filled(
    profile: u8,
    count: u64,
    starts: &[i64],
    ends: &[u64],
    steps: &[i16],
    start: u64,
    end: u64,
    out: &mut [u64],
) -> Listed
    ensures result_value { says_listed result ≡ filled_said profile count (source starts ends steps) start end out }
    ensures leaves { Leaves out (says_listed result) (filled_in profile (sequence starts ends steps) start end) }
{
    match check_profile(profile, count, starts, ends, steps) {
        Checked::Refused(why) => Listed::Refused(why),
        Checked::Fine => list(profile != 1, count, starts, ends, steps, start, end, out),
    }
}
