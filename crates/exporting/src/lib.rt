// Document 02, request 3: the bitmap of a rising column. All is tried before anything is written.
#![tactic(auto)]

ghost use Rattle.std.specs.Prelude.{◌≡◌, true, ◌≤◌, length};
ghost use Rattle.meaning.specs.Column.{sound};
ghost use Rattle.meaning.specs.Naming.{column_now, source, Leaves};
ghost use Rattle.bits.specs.Bitmap.{bytes_for};
ghost use Rattle.exporting.specs.Export.{exported_bytes};
ghost use Rattle.exporting.specs.Says.{says_exported, exporting};
ghost use Rattle.recorded.specs.Inner.{all_fit};
ghost use Rattle.exporting.specs.Inner.{exporting_fit};

use crate::marking::{clear, mark_runs};
use checked::Checked;
use meaning::Refusal;
use recorded::check_records;

pub mod marking;

// The bytes written, or a refusal.
#[derive(Clone, Copy)]
pub enum Exported {
    Bytes(usize),
    Refused(Refusal),
}

// Every byte is cleared, then marked: what they held does not shine through.
fn fill(starts: &[i64], ends: &[u64], steps: &[i16], count: u64, bytes: &mut [u8])
    requires steps_value { sound (column_now starts ends steps) ≡ true }
    requires count_value { all_fit (column_now starts ends steps) count ≡ true }
    requires count_bound { (count ≤ 524288) × (length bytes.old ≡ bytes_for count) }
    ensures { bytes.new ≡ exported_bytes (source starts ends steps) count }
{
    clear(bytes);
    mark_runs(starts, ends, steps, count, bytes);
}

// The export of a column that passed all tests but the last: refused 10, or given.
fn export_fit(starts: &[i64], ends: &[u64], steps: &[i16], count: u64, out: &mut [u8]) -> Exported
    requires steps_value { sound (column_now starts ends steps) ≡ true }
    requires count_value { all_fit (column_now starts ends steps) count ≡ true }
    requires count_bound { count ≤ 524288 }
    ensures result_value { says_exported result ≡ exporting_fit count out }
    ensures leaves { Leaves out (says_exported result) (exported_bytes (source starts ends steps) count) }
{
    let used = ((count + 7) >> 3) as usize;
    if out.len() < used {
        return Exported::Refused(Refusal::Room);
    }
    fill(starts, ends, steps, count, &mut out[..used]);
    Exported::Bytes(used)
}

// The bitmap of a column's elements among count records; or refused 14, 1, 2, 3, 7, 15, 10.
pub fn export(starts: &[i64], ends: &[u64], steps: &[i16], count: u64, out: &mut [u8]) -> Exported
    ensures result_value { says_exported result ≡ exporting (source starts ends steps) count out }
    ensures leaves { Leaves out (says_exported result) (exported_bytes (source starts ends steps) count) }
{
    if 524288 < count {
        return Exported::Refused(Refusal::Count);
    }
    match check_records(starts, ends, steps, count) {
        Checked::Refused(why) => Exported::Refused(why),
        Checked::Fine => export_fit(starts, ends, steps, count, out),
    }
}
