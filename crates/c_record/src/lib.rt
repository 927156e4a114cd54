// The C interface: the stored record.
#![tactic(auto)]

ghost use Rattle.std.specs.Prelude.{◌≡◌};
ghost use Rattle.meaning.specs.Naming.{column, Leaves};
ghost use Rattle.codec.specs.Record.{record_of, column_in};
ghost use Rattle.record.specs.Says.{says_read, says_written, reading, writing};
ghost use Rattle.c_record.specs.Stored.{flat_read, flat_written};

use loftsplice::refusal::number;
use record::{ReadRecord, Written, read, write};

// A refusal's number or 0; the run count and the bytes used.
#[repr(C)]
#[derive(Clone, Copy)]
pub struct FlatRead {
    pub refusal: u32,
    pub runs: u64,
    pub used: u64,
}

// A refusal's number or 0, and the bytes written.
#[repr(C)]
#[derive(Clone, Copy)]
pub struct FlatWritten {
    pub refusal: u32,
    pub bytes: u64,
}

fn flat_read(answer: ReadRecord) -> FlatRead
    ensures { result ≡ flat_read (says_read answer) }
{
    match answer {
        ReadRecord::Runs(runs, used) => FlatRead {
            refusal: 0,
            runs: runs as u64,
            used: used as u64,
        },
        ReadRecord::Refused(why) => FlatRead {
            refusal: number(why),
            runs: 0,
            used: 0,
        },
    }
}

fn flat_written(answer: Written) -> FlatWritten
    ensures { result ≡ flat_written (says_written answer) }
{
    match answer {
        Written::Bytes(bytes) => FlatWritten {
            refusal: 0,
            bytes: bytes as u64,
        },
        Written::Refused(why) => FlatWritten {
            refusal: number(why),
            bytes: 0,
        },
    }
}

// The column of a record, into the first places of the three arrays; or refused 11, 13, 12, 10, 2, 3.
#[unsafe(no_mangle)]
pub extern "C" fn loftsplice_read_record(
    bytes: &[u8],
    starts: &mut [i64],
    ends: &mut [u64],
    steps: &mut [i16],
) -> FlatRead
    ensures value { result ≡ flat_read (reading bytes starts ends steps) }
    ensures leaves { Leaves starts (reading bytes starts ends steps) (column_in bytes.now).starts }
    ensures leaves_2 { Leaves ends (reading bytes starts ends steps) (column_in bytes.now).ends }
    ensures leaves_3 { Leaves steps (reading bytes starts ends steps) (column_in bytes.now).steps }
{
    let answer = read(bytes, starts, ends, steps);
    flat_read(answer)
}

// The record of a column, into the first places of the output; or refused 1, 2, 3, 10.
#[unsafe(no_mangle)]
pub extern "C" fn loftsplice_write_record(
    starts: &[i64],
    ends: &[u64],
    steps: &[i16],
    out: &mut [u8],
) -> FlatWritten
    ensures value { result ≡ flat_written (writing (column starts ends steps) out) }
    ensures leaves { Leaves out (writing (column starts ends steps) out) (record_of (column starts ends steps)) }
{
    let answer = write(starts, ends, steps, out);
    flat_written(answer)
}
