// Reading a record: its head, its runs, the tests of them, and the column that they make.
ghost use Rattle.std.specs.Prelude.{◌≡◌, ◌+◌, ◌*◌, ◌≤◌, ◌<◌, length};
ghost use Rattle.std.proofs.lemmas.List.Edits.{sets};
ghost use Rattle.checked.specs.Says.{says_checked};
ghost use Rattle.meaning.specs.Column.{source_of};
ghost use Rattle.meaning.specs.Calls.{check_of};
ghost use Rattle.codec.specs.Record.{start_in, step_in, count_in, column_to};
ghost use Rattle.codec.proofs.Opening.{open_of};
ghost use Rattle.record.specs.Inner.{says_opened, RoomFor};

use crate::numbers::read_le;
use checked::{Checked, reaches};
use codec::{signed16, signed64};
use meaning::Refusal;

// The number of runs of a record whose length and kind are right, or a refusal.
#[derive(Clone, Copy)]
pub(crate) enum Opened {
    Runs(usize),
    Refused(Refusal),
}

// A run as it is stored.
#[derive(Clone, Copy)]
struct Run {
    start: i64,
    step: i16,
    count: u32,
}

// "4 bytes there (11), length range (13), bytes there (11), kind (12), multiple (13)".
pub(crate) fn open_record(bytes: &[u8]) -> Opened
    ensures { says_opened result ≡ open_of bytes.now }
{
    if bytes.len() < 4 {
        return Opened::Refused(Refusal::Cut);
    }
    let size = read_le(bytes, 0, 4) as usize;
    if size < 2 {
        return Opened::Refused(Refusal::Size);
    }
    if 57346 < size {
        return Opened::Refused(Refusal::Size);
    }
    if bytes.len() < 4 + size {
        return Opened::Refused(Refusal::Cut);
    }
    if read_le(bytes, 4, 2) != 1 {
        return Opened::Refused(Refusal::Kind);
    }
    if (size - 2) % 14 != 0 {
        return Opened::Refused(Refusal::Size);
    }
    Opened::Runs((size - 2) / 14)
}

// Run r.
fn run_in(bytes: &[u8], r: usize) -> Run
    requires { 6 + 14 * r + 14 ≤ length bytes.now }
    ensures start_value { result.start ≡ start_in bytes.now r }
    ensures step_value { result.step ≡ step_in bytes.now r }
    ensures count_value { result.count ≡ count_in bytes.now r }
{
    let at = 6 + 14 * r;
    Run {
        start: signed64(read_le(bytes, at, 8)),
        step: signed16(read_le(bytes, at + 8, 2) as u16),
        count: read_le(bytes, at + 10, 4) as u32,
    }
}

// 2 and 3 of the first n runs, before anything is written: one pass, that remembers 3 until 2 was tried on all.
pub(crate) fn check_runs(bytes: &[u8], n: usize) -> Checked
    requires { (n ≤ 4096) × (6 + 14 * n ≤ length bytes.now) }
    ensures { says_checked result ≡ check_of (source_of (column_to bytes.now n)) }
{
    let mut total = 0u64;
    let mut reach = true;
    let mut i = 0;
    while i < n {
        let run = run_in(bytes, i);
        let count = run.count;
        if count == 0 {
            return Checked::Refused(Refusal::Ends);
        }
        total += count as u64;
        if 4294967295 < total {
            return Checked::Refused(Refusal::Ends);
        }
        reach = reach & reaches(run.start, run.step, count - 1);
        i += 1;
    }
    if reach {
        Checked::Fine
    } else {
        Checked::Refused(Refusal::Reach)
    }
}

// The first n runs, into the first n places of the three arrays.
pub(crate) fn read_runs(
    bytes: &[u8],
    n: usize,
    starts: &mut [i64],
    ends: &mut [u64],
    steps: &mut [i16],
)
    requires { RoomFor n bytes starts ends steps }
    ensures starts_after { starts.new ≡ sets starts.old 0 (column_to bytes.now n).starts }
    ensures ends_after { ends.new ≡ sets ends.old 0 (column_to bytes.now n).ends }
    ensures steps_after { steps.new ≡ sets steps.old 0 (column_to bytes.now n).steps }
{
    let mut total = 0u64;
    let mut i = 0;
    while i < n {
        let run = run_in(bytes, i);
        let start = run.start;
        let step = run.step;
        total += run.count as u64;
        starts[i] = start;
        ends[i] = total;
        steps[i] = step;
        i += 1;
    }
}
