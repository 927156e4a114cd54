// The static library of crate c_profiles: the functions that C calls, each of which calls the one of that name there.
#![tactic(auto)]

ghost use Rattle.std.specs.Prelude.{◌≡◌};
ghost use Rattle.meaning.specs.Naming.{source, sequence, Leaves};
ghost use Rattle.profiles.specs.Profiles.{carries_of, carrying_in, filled_in};
ghost use Rattle.profiles.specs.Says.{carrying as do_said, filled as dont_said};
ghost use Rattle.c_profiles.specs.Profiles.{flat_carried, flat_records};

use c_profiles::{FlatCarried, FlatRecords};

// Whether a record carries the field; or refused 16, 14, 1, 2, 3, 7, 15, 4.
#[unsafe(no_mangle)]
pub extern "C" fn loftsplice_carries(
    profile: u32,
    count: u64,
    starts: &[i64],
    ends: &[u64],
    steps: &[i16],
    asked: u64,
) -> FlatCarried
    ensures { result ≡ flat_carried (carries_of profile count (source starts ends steps) asked) }
{
    c_profiles::loftsplice_carries(profile, count, starts, ends, steps, asked)
}

// The records of a window that carry the field; or refused 16, 14, 1, 2, 3, 7, 15, 5, 10.
#[unsafe(no_mangle)]
pub extern "C" fn loftsplice_carrying(
    profile: u32,
    count: u64,
    starts: &[i64],
    ends: &[u64],
    steps: &[i16],
    start: u64,
    end: u64,
    out: &mut [u64],
) -> FlatRecords
    ensures value { result ≡ flat_records (do_said profile count (source starts ends steps) start end out) }
    ensures leaves { Leaves out (do_said profile count (source starts ends steps) start end out) (carrying_in profile (sequence starts ends steps) start end) }
{
    c_profiles::loftsplice_carrying(profile, count, starts, ends, steps, start, end, out)
}

// The records of a window that do not carry it, the filled ones; refused as those that do.
#[unsafe(no_mangle)]
pub extern "C" fn loftsplice_filled(
    profile: u32,
    count: u64,
    starts: &[i64],
    ends: &[u64],
    steps: &[i16],
    start: u64,
    end: u64,
    out: &mut [u64],
) -> FlatRecords
    ensures value { result ≡ flat_records (dont_said profile count (source starts ends steps) start end out) }
    ensures leaves { Leaves out (dont_said profile count (source starts ends steps) start end out) (filled_in profile (sequence starts ends steps) start end) }
{
    c_profiles::loftsplice_filled(profile, count, starts, ends, steps, start, end, out)
}
