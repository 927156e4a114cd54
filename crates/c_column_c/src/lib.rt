// The static library of crate c_column: the functions that C calls, each of which calls the one of that name there.
#![tactic(auto)]

ghost use Rattle.std.specs.Prelude.{◌≡◌};
ghost use Rattle.meaning.specs.Naming.{column, source};
ghost use Rattle.meaning.specs.Calls.{check_of, len_of, is_empty_of, place_of, get_of, diff_step_of};
ghost use Rattle.c_forms.specs.Flat.{refusal_in};
ghost use Rattle.c_column.specs.Column.{flat_length, flat_emptiness, flat_place, flat_difference};
ghost use Rattle.c_forms.specs.Answer.{flat_answer};
ghost use Rattle.c_column.specs.Column.{answered};

use c_column::{FlatDifference, FlatEmptiness, FlatLength, FlatPlace};
use c_forms::answers::FlatAnswer;

// 0, or refused 1, 2, 3.
#[unsafe(no_mangle)]
pub extern "C" fn loftsplice_check(starts: &[i64], ends: &[u64], steps: &[i16]) -> u32
    ensures { result ≡ refusal_in (check_of (source starts ends steps)) }
{
    c_column::loftsplice_check(starts, ends, steps)
}

// The length, or refused 1, 2, 3.
#[unsafe(no_mangle)]
pub extern "C" fn loftsplice_len(starts: &[i64], ends: &[u64], steps: &[i16]) -> FlatLength
    ensures { result ≡ flat_length (len_of (source starts ends steps)) }
{
    c_column::loftsplice_len(starts, ends, steps)
}

// Whether the length is 0, or refused 1, 2, 3.
#[unsafe(no_mangle)]
pub extern "C" fn loftsplice_is_empty(starts: &[i64], ends: &[u64], steps: &[i16]) -> FlatEmptiness
    ensures { result ≡ flat_emptiness (is_empty_of (source starts ends steps)) }
{
    c_column::loftsplice_is_empty(starts, ends, steps)
}

// The place of an index, or refused 1, 2, 3, 4.
#[unsafe(no_mangle)]
pub extern "C" fn loftsplice_place(
    starts: &[i64],
    ends: &[u64],
    steps: &[i16],
    index: u64,
) -> FlatPlace
    ensures { result ≡ flat_place (place_of (column starts ends steps) index) }
{
    c_column::loftsplice_place(starts, ends, steps, index)
}

// The element at an index, or refused 1, 2, 3, 4.
#[unsafe(no_mangle)]
pub extern "C" fn loftsplice_get(
    starts: &[i64],
    ends: &[u64],
    steps: &[i16],
    index: u64,
) -> FlatAnswer
    ensures { result ≡ flat_answer (answered (get_of (source starts ends steps) index)) }
{
    c_column::loftsplice_get(starts, ends, steps, index)
}

// The step between two values, or none.
#[unsafe(no_mangle)]
pub extern "C" fn loftsplice_diff_step(previous: i64, current: i64) -> FlatDifference
    ensures { result ≡ flat_difference (diff_step_of previous current) }
{
    c_column::loftsplice_diff_step(previous, current)
}
