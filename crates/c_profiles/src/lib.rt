// The C interface: columns read by profile. A profile comes as a number of 32 bits, as all numbers of a kind do here, and is refused by that number: cut to
// a byte, 257 would be read as 1.
#![tactic(auto)]

ghost use Rattle.std.specs.Prelude.{◌≡◌};
ghost use Rattle.meaning.specs.Naming.{source, sequence, Leaves};
ghost use Rattle.profiles.specs.Profiles.{carries_of, carrying_in, filled_in};
ghost use Rattle.profiles.specs.Says.{says_field, says_listed, carrying as do_said, filled as dont_said};
ghost use Rattle.c_profiles.specs.Profiles.{flat_carried, flat_records, profile_in};

use loftsplice::refusal::number;
use profiles::{Field, Listed, carries, carrying, filled};

// A refusal's number or 0, and 1 if the record carries the field.
#[repr(C)]
#[derive(Clone, Copy)]
pub struct FlatCarried {
    pub refusal: u32,
    pub carries: u32,
}

// A refusal's number or 0, and the records written.
#[repr(C)]
#[derive(Clone, Copy)]
pub struct FlatRecords {
    pub refusal: u32,
    pub written: u64,
}

fn flat_carried(answer: Field) -> FlatCarried
    ensures { result ≡ flat_carried (says_field answer) }
{
    match answer {
        Field::Yes => FlatCarried {
            refusal: 0,
            carries: 1,
        },
        Field::No => FlatCarried {
            refusal: 0,
            carries: 0,
        },
        Field::Refused(why) => FlatCarried {
            refusal: number(why),
            carries: 0,
        },
    }
}

fn flat_records(answer: Listed) -> FlatRecords
    ensures { result ≡ flat_records (says_listed answer) }
{
    match answer {
        Listed::Records(written) => FlatRecords {
            refusal: 0,
            written,
        },
        Listed::Refused(why) => FlatRecords {
            refusal: number(why),
            written: 0,
        },
    }
}

// Any number but 1 and 2 as 0, which is no profile either.
fn profile_in(profile: u32) -> u8
    ensures { result ≡ profile_in profile }
{
    if profile == 1 {
        return 1;
    }
    if profile == 2 {
        return 2;
    }
    0
}

// Whether a record carries the field; or refused 16, 14, 1, 2, 3, 7, 15, 4.
#[unsafe(no_mangle)]
pub extern "C" fn loftsplice_carries(
    profile: u32,
    count: u64,
    starts: &[i64],
    ends: &[u64],
    steps: &[i16],
    asked: u64,
) -> FlatCarried
    ensures { result ≡ flat_carried (carries_of profile count (source starts ends steps) asked) }
{
    let byte = profile_in(profile);
    let answer = carries(byte, count, starts, ends, steps, asked);
    flat_carried(answer)
}

// The records of a window that carry the field; or refused 16, 14, 1, 2, 3, 7, 15, 5, 10.
#[unsafe(no_mangle)]
pub extern "C" fn loftsplice_carrying(
    profile: u32,
    count: u64,
    starts: &[i64],
    ends: &[u64],
    steps: &[i16],
    start: u64,
    end: u64,
    out: &mut [u64],
) -> FlatRecords
    ensures value { result ≡ flat_records (do_said profile count (source starts ends steps) start end out) }
    ensures leaves { Leaves out (do_said profile count (source starts ends steps) start end out) (carrying_in profile (sequence starts ends steps) start end) }
{
    let byte = profile_in(profile);
    let answer = carrying(byte, count, starts, ends, steps, start, end, out);
    flat_records(answer)
}

// The records of a window that do not carry it, the filled ones; refused as those that do.
#[unsafe(no_mangle)]
pub extern "C" fn loftsplice_filled(
    profile: u32,
    count: u64,
    starts: &[i64],
    ends: &[u64],
    steps: &[i16],
    start: u64,
    end: u64,
    out: &mut [u64],
) -> FlatRecords
    ensures value { result ≡ flat_records (dont_said profile count (source starts ends steps) start end out) }
    ensures leaves { Leaves out (dont_said profile count (source starts ends steps) start end out) (filled_in profile (sequence starts ends steps) start end) }
{
    let byte = profile_in(profile);
    let answer = filled(byte, count, starts, ends, steps, start, end, out);
    flat_records(answer)
}
