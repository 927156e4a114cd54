// The static library of crate c_record: the functions that C calls, each of which calls the one of that name there.
#![tactic(auto)]

ghost use Rattle.std.specs.Prelude.{◌≡◌};
ghost use Rattle.meaning.specs.Naming.{column, Leaves};
ghost use Rattle.codec.specs.Record.{record_of, column_in};
ghost use Rattle.record.specs.Says.{reading, writing};
ghost use Rattle.c_record.specs.Stored.{flat_read, flat_written};

use c_record::{FlatRead, FlatWritten};

// The column of a record, into the first places of the three arrays; or refused 11, 13, 12, 10, 2, 3.
#[unsafe(no_mangle)]
pub extern "C" fn loftsplice_read_record(
    bytes: &[u8],
    starts: &mut [i64],
    ends: &mut [u64],
    steps: &mut [i16],
) -> FlatRead
    ensures value { result ≡ flat_read (reading bytes starts ends steps) }
    ensures leaves { Leaves starts (reading bytes starts ends steps) (column_in bytes.now).starts }
    ensures leaves_2 { Leaves ends (reading bytes starts ends steps) (column_in bytes.now).ends }
    ensures leaves_3 { Leaves steps (reading bytes starts ends steps) (column_in bytes.now).steps }
{
    c_record::loftsplice_read_record(bytes, starts, ends, steps)
}

// The record of a column, into the first places of the output; or refused 1, 2, 3, 10.
#[unsafe(no_mangle)]
pub extern "C" fn loftsplice_write_record(
    starts: &[i64],
    ends: &[u64],
    steps: &[i16],
    out: &mut [u8],
) -> FlatWritten
    ensures value { result ≡ flat_written (writing (column starts ends steps) out) }
    ensures leaves { Leaves out (writing (column starts ends steps) out) (record_of (column starts ends steps)) }
{
    c_record::loftsplice_write_record(starts, ends, steps, out)
}
