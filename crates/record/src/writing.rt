// Writing a record: its head, and its runs one after the other.
ghost use Rattle.std.specs.Prelude.{◌≡◌, true, ◌+◌, ◌*◌, ◌≤◌, ◌<◌, length};
ghost use Rattle.std.proofs.lemmas.List.Edits.{sets};
ghost use Rattle.meaning.specs.Column.{sound};
ghost use Rattle.meaning.specs.Naming.{column, column_now};
ghost use Rattle.meaning.specs.Parts.{joined};
ghost use Rattle.codec.specs.Record.{run_bytes, run_out, record_of};

use crate::numbers::write_le;
use codec::{unsigned16, unsigned64};

// Stores a run from at on.
fn write_run(out: &mut [u8], at: usize, start: i64, step: i16, count: u32)
    requires { at + 14 ≤ length out.old }
    ensures { out.new ≡ sets out.old at (run_bytes start step count) }
{
    write_le(out, at, 8, unsigned64(start));
    write_le(out, at + 8, 2, unsigned16(step) as u64);
    write_le(out, at + 10, 4, count as u64);
}

// Stores the runs of a column after the head.
fn write_runs(starts: &[i64], ends: &[u64], steps: &[i16], out: &mut [u8])
    requires steps_value { sound (column_now starts ends steps) ≡ true }
    requires ends_in_bounds { 6 + 14 * length ends.now ≤ length out.old }
    ensures { out.new ≡ sets out.old 6 (joined (run_out (column starts ends steps)) (length ends.now)) }
{
    let mut last = 0u64;
    let mut i = 0;
    while i < ends.len() {
        let end = ends[i];
        write_run(out, 6 + 14 * i, starts[i], steps[i], (end - last) as u32);
        last = end;
        i += 1;
    }
}

// Stores the record of a column.
pub(crate) fn write_all(starts: &[i64], ends: &[u64], steps: &[i16], out: &mut [u8])
    requires steps_value { sound (column_now starts ends steps) ≡ true }
    requires ends_in_bounds { 6 + 14 * length ends.now ≤ length out.old }
    ensures { out.new ≡ sets out.old 0 (record_of (column starts ends steps)) }
{
    write_le(out, 0, 4, (2 + 14 * ends.len()) as u64);
    write_le(out, 4, 2, 1);
    write_runs(starts, ends, steps, out);
}
