// The C interface: the calls on a column. What is not given is 0.
#![tactic(auto)]

ghost use Rattle.std.specs.Prelude.{◌≡◌};
ghost use Rattle.meaning.specs.Naming.{column, source};
ghost use Rattle.meaning.specs.Calls.{check_of, len_of, is_empty_of, place_of, get_of, diff_step_of};
ghost use Rattle.c_forms.specs.Flat.{refusal_in};
ghost use Rattle.c_column.specs.Column.{flat_length, flat_emptiness, flat_place, flat_difference};
ghost use Rattle.c_forms.specs.Answer.{flat_answer};
ghost use Rattle.c_column.specs.Column.{answered};

use c_forms::answers::FlatAnswer;
use checked::{Checked, check};
use loftsplice::refusal::number;
use loftsplice::rle::{Emptiness, Got, Length, Placed, get, is_empty, len, place};
use loftsplice::run_length_encodable::{Difference, diff_step};

// A refusal's number or 0, and the length.
#[repr(C)]
#[derive(Clone, Copy)]
pub struct FlatLength {
    pub refusal: u32,
    pub length: u64,
}

// A refusal's number or 0, and 1 if there is no element.
#[repr(C)]
#[derive(Clone, Copy)]
pub struct FlatEmptiness {
    pub refusal: u32,
    pub empty: u32,
}

// A refusal's number or 0, and where an index lies: its run, its offset there, and how many elements follow from it on to the end of the run.
#[repr(C)]
#[derive(Clone, Copy)]
pub struct FlatPlace {
    pub refusal: u32,
    pub run: u64,
    pub offset: u64,
    pub follows: u64,
}

// 1 and a step, or 0.
#[repr(C)]
#[derive(Clone, Copy)]
pub struct FlatDifference {
    pub found: u32,
    pub step: i16,
}

// 0, or refused 1, 2, 3.
#[unsafe(no_mangle)]
pub extern "C" fn loftsplice_check(starts: &[i64], ends: &[u64], steps: &[i16]) -> u32
    ensures { result ≡ refusal_in (check_of (source starts ends steps)) }
{
    let checked = check(starts, ends, steps);
    match checked {
        Checked::Fine => 0,
        Checked::Refused(why) => number(why),
    }
}

// The length, or refused 1, 2, 3.
#[unsafe(no_mangle)]
pub extern "C" fn loftsplice_len(starts: &[i64], ends: &[u64], steps: &[i16]) -> FlatLength
    ensures { result ≡ flat_length (len_of (source starts ends steps)) }
{
    let answer = len(starts, ends, steps);
    match answer {
        Length::Is(length) => FlatLength { refusal: 0, length },
        Length::Refused(why) => FlatLength {
            refusal: number(why),
            length: 0,
        },
    }
}

// Whether the length is 0, or refused 1, 2, 3.
#[unsafe(no_mangle)]
pub extern "C" fn loftsplice_is_empty(starts: &[i64], ends: &[u64], steps: &[i16]) -> FlatEmptiness
    ensures { result ≡ flat_emptiness (is_empty_of (source starts ends steps)) }
{
    let answer = is_empty(starts, ends, steps);
    match answer {
        Emptiness::Empty => FlatEmptiness {
            refusal: 0,
            empty: 1,
        },
        Emptiness::Held => FlatEmptiness {
            refusal: 0,
            empty: 0,
        },
        Emptiness::Refused(why) => FlatEmptiness {
            refusal: number(why),
            empty: 0,
        },
    }
}

// The place of an index, or refused 1, 2, 3, 4.
#[unsafe(no_mangle)]
pub extern "C" fn loftsplice_place(
    starts: &[i64],
    ends: &[u64],
    steps: &[i16],
    index: u64,
) -> FlatPlace
    ensures { result ≡ flat_place (place_of (column starts ends steps) index) }
{
    let answer = place(starts, ends, steps, index);
    match answer {
        Placed::At(at) => FlatPlace {
            refusal: 0,
            run: at.run as u64,
            offset: at.offset,
            follows: at.follows,
        },
        Placed::Refused(why) => FlatPlace {
            refusal: number(why),
            run: 0,
            offset: 0,
            follows: 0,
        },
    }
}

// The element at an index, or refused 1, 2, 3, 4.
#[unsafe(no_mangle)]
pub extern "C" fn loftsplice_get(
    starts: &[i64],
    ends: &[u64],
    steps: &[i16],
    index: u64,
) -> FlatAnswer
    ensures { result ≡ flat_answer (answered (get_of (source starts ends steps) index)) }
{
    let answer = get(starts, ends, steps, index);
    match answer {
        Got::Value(value) => FlatAnswer {
            refusal: 0,
            found: 1,
            value,
        },
        Got::Refused(why) => FlatAnswer {
            refusal: number(why),
            found: 0,
            value: 0,
        },
    }
}

// The step between two values, or none.
#[unsafe(no_mangle)]
pub extern "C" fn loftsplice_diff_step(previous: i64, current: i64) -> FlatDifference
    ensures { result ≡ flat_difference (diff_step_of previous current) }
{
    let answer = diff_step(previous, current);
    match answer {
        Difference::Step(step) => FlatDifference { found: 1, step },
        Difference::None => FlatDifference { found: 0, step: 0 },
    }
}
