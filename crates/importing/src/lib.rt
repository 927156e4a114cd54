// Document 02, request 3: the column of the records that are present in a bitmap. There is no list of them: it goes from one to the next. The runs are
// found once, and kept, a number a run; the room is tried before anything is written.
#![tactic(auto)]

ghost use Rattle.std.specs.Prelude.{◌≡◌, ◌≤◌, ◌+◌, ◌*◌, min, length};
ghost use Rattle.std.proofs.lemmas.List.Edits.{sets};
ghost use Rattle.meaning.specs.Naming.{Leaves};
ghost use Rattle.bits.specs.Bitmap.{bytes_for};
ghost use Rattle.build.specs.Rule.{runs_of};
ghost use Rattle.importing.specs.Import.{present_in, imported_column};
ghost use Rattle.importing.specs.Says.{says_imported, importing};
ghost use Rattle.importing.specs.Inner.{Kept, RoomFor};

pub mod single;

use bits::{count_present, next_present};
use meaning::Refusal;

// The run count and the ones, or a refusal.
#[derive(Clone, Copy)]
pub enum Imported {
    Runs(usize, usize),
    Refused(Refusal),
}

// A run as one number: 20 bits of its first record, 20 of the number of its records, 15 of its step.
fn packed(at: usize, n: usize, step: usize) -> u64
    requires { (at ≤ 524288) × (n ≤ 524288) × (step ≤ 32767) }
    ensures { result ≡ at * 34359738368 + n * 32768 + step }
{
    (at as u64) * 34359738368 + (n as u64) * 32768 + (step as u64)
}

// How many runs the rule needs, with each kept; 4097 if it needs more than 4096, and then no more of the bitmap is read.
fn find_runs(bytes: &[u8], count: usize, kept: &mut [u64]) -> usize
    requires { (count ≤ 524288) × (min count 4096 ≤ length kept.old) }
    ensures value { result ≡ min (length (runs_of (present_in bytes.now count))) 4097 }
    ensures kept { result ≤ 4096 → Kept kept.new (present_in bytes.now count) result }
{
    let mut n = 0;
    let mut at = next_present(bytes, 0, count);
    let mut shown = single::behind(bytes, at, count);
    while at < count {
        if n == 4096 {
            return 4097;
        }
        let run = single::run_behind(bytes, at, count, shown);
        kept[n] = packed(at, run.n, run.step);
        at = run.next;
        shown = run.rest;
        n += 1;
    }
    n
}

// The runs that are kept, into the first places of the three arrays.
fn write_runs(
    bytes: &[u8],
    count: usize,
    kept: &[u64],
    n: usize,
    starts: &mut [i64],
    ends: &mut [u64],
    steps: &mut [i16],
)
    requires n_value { (n ≡ length (runs_of (present_in bytes.now count))) × (n ≤ 4096) × Kept kept.now (present_in bytes.now count) n }
    requires room_for { RoomFor bytes count starts ends steps }
    ensures starts_after { starts.new ≡ sets starts.old 0 (imported_column bytes.now count).starts }
    ensures ends_after { ends.new ≡ sets ends.old 0 (imported_column bytes.now count).ends }
    ensures steps_after { steps.new ≡ sets steps.old 0 (imported_column bytes.now count).steps }
{
    let mut i: u64 = 0;
    let mut k = 0;
    while k < n {
        let run = kept[k];
        let end = i + run / 32768 % 1048576;
        starts[k] = (run / 34359738368) as i64;
        ends[k] = end;
        steps[k] = (run % 32768) as i16;
        i = end;
        k += 1;
    }
}

// What import does once count and bytes are tried.
fn import_kept(
    bytes: &[u8],
    count: usize,
    starts: &mut [i64],
    ends: &mut [u64],
    steps: &mut [i16],
    kept: &mut [u64],
) -> Imported
    requires { (count ≤ 524288) × (bytes_for count ≤ length bytes.now) × (min count 4096 ≤ length kept.old) }
    ensures result_value { says_imported result ≡ importing bytes count starts ends steps }
    ensures leaves { Leaves starts (says_imported result) (imported_column bytes.now count).starts }
    ensures leaves_2 { Leaves ends (says_imported result) (imported_column bytes.now count).ends }
    ensures leaves_3 { Leaves steps (says_imported result) (imported_column bytes.now count).steps }
{
    let n = find_runs(bytes, count, kept);
    if 4096 < n {
        return Imported::Refused(Refusal::Shape);
    }
    if starts.len() < n {
        return Imported::Refused(Refusal::Room);
    }
    if ends.len() < n {
        return Imported::Refused(Refusal::Room);
    }
    if steps.len() < n {
        return Imported::Refused(Refusal::Room);
    }
    if n == 0 {
        return Imported::Runs(n, 0);
    }
    write_runs(bytes, count, kept, n, starts, ends, steps);
    let ones = count_present(bytes, count);
    Imported::Runs(n, ones)
}

// The column of the records that are present among count, into the first places of the three arrays; or refused 14, 11, 1, 10.
pub fn import(
    bytes: &[u8],
    count: u64,
    starts: &mut [i64],
    ends: &mut [u64],
    steps: &mut [i16],
) -> Imported
    ensures result_value { says_imported result ≡ importing bytes count starts ends steps }
    ensures leaves { Leaves starts (says_imported result) (imported_column bytes.now count).starts }
    ensures leaves_2 { Leaves ends (says_imported result) (imported_column bytes.now count).ends }
    ensures leaves_3 { Leaves steps (says_imported result) (imported_column bytes.now count).steps }
{
    if 524288 < count {
        return Imported::Refused(Refusal::Count);
    }
    let records = count as usize;
    if bytes.len() < (records + 7) >> 3 {
        return Imported::Refused(Refusal::Cut);
    }
    // No more runs than records: few records ask for less room that has to be cleared.
    if records <= 512 {
        let mut few = [0u64; 512];
        return import_kept(bytes, records, starts, ends, steps, &mut few);
    }
    let mut kept = [0u64; 4096];
    import_kept(bytes, records, starts, ends, steps, &mut kept)
}
