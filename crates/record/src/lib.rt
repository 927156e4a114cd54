// The stored record: a column as bytes, and bytes as a column. Both calls try all before they write anything.
#![tactic(auto)]

ghost use Rattle.std.specs.Prelude.{◌≡◌};
ghost use Rattle.meaning.specs.Naming.{column, Leaves};
ghost use Rattle.codec.specs.Record.{record_of, column_in};
ghost use Rattle.record.specs.Says.{says_read, says_written, reading, writing};

use crate::reading::{Opened, check_runs, open_record, read_runs};
use crate::writing::write_all;
use checked::{Checked, check};
use meaning::Refusal;

mod numbers;
mod reading;
mod writing;

// The run count and the bytes used, or a refusal.
#[derive(Clone, Copy)]
pub enum ReadRecord {
    Runs(usize, usize),
    Refused(Refusal),
}

// The bytes written, or a refusal.
#[derive(Clone, Copy)]
pub enum Written {
    Bytes(usize),
    Refused(Refusal),
}

// A record at the front of the bytes, into the first places of the three arrays; what follows the record is not read.
pub fn read(bytes: &[u8], starts: &mut [i64], ends: &mut [u64], steps: &mut [i16]) -> ReadRecord
    ensures result_value { says_read result ≡ reading bytes starts ends steps }
    ensures leaves { Leaves starts (says_read result) (column_in bytes.now).starts }
    ensures leaves_2 { Leaves ends (says_read result) (column_in bytes.now).ends }
    ensures leaves_3 { Leaves steps (says_read result) (column_in bytes.now).steps }
{
    match open_record(bytes) {
        Opened::Refused(why) => ReadRecord::Refused(why),
        Opened::Runs(n) => {
            if starts.len() < n {
                return ReadRecord::Refused(Refusal::Room);
            }
            if ends.len() < n {
                return ReadRecord::Refused(Refusal::Room);
            }
            if steps.len() < n {
                return ReadRecord::Refused(Refusal::Room);
            }
            match check_runs(bytes, n) {
                Checked::Refused(why) => ReadRecord::Refused(why),
                Checked::Fine => {
                    read_runs(bytes, n, starts, ends, steps);
                    ReadRecord::Runs(n, 6 + 14 * n)
                }
            }
        }
    }
}

// The record of a column, into the first places of the output.
pub fn write(starts: &[i64], ends: &[u64], steps: &[i16], out: &mut [u8]) -> Written
    ensures result_value { says_written result ≡ writing (column starts ends steps) out }
    ensures leaves { Leaves out (says_written result) (record_of (column starts ends steps)) }
{
    match check(starts, ends, steps) {
        Checked::Refused(why) => Written::Refused(why),
        Checked::Fine => {
            let size = 6 + 14 * ends.len();
            if out.len() < size {
                return Written::Refused(Refusal::Room);
            }
            write_all(starts, ends, steps, out);
            Written::Bytes(size)
        }
    }
}
