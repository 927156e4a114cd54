// The record, read whole: it has at most 57,350 bytes, and a file holds one record and nothing more.
ghost use Rattle.std.specs.Prelude.{◌≡◌, ◌≤◌};

use crate::{checking, listing};
use asking::opening::Source;
use asking::{finding, opening};
use record::{ReadRecord, read};
use telling::printing;
use words::arguments::natural;
use words::options::Command;
use words::places::{FILE, FORMAT, RECORDS, RISING};

// The answer of a command on the column of a file. A read that ends early may have failed, as that of a folder does, and one that fills the buffer may
// have left bytes behind: one more tells.
pub fn from_file(rt: &HostRuntime, command: Command, places: &[usize; 16]) {
    let Some(mut source) = opening::open(rt, places[FILE], false) else {
        return;
    };
    let mut bytes = [0u8; 57350];
    let n = opening::read_full(rt, &mut source, &mut bytes);
    let mut next = [0u8; 1];
    let Some(more) = opening::read_some(rt, &mut source, &mut next) else {
        return;
    };
    if more == 0 {
        from_bytes(rt, command, &bytes[..n], n, &mut source, places);
    } else {
        from_bytes(rt, command, &bytes[..n], n + 1, &mut source, places);
    }
}

// A count, held to the places that there are: no proof here has to read the promise of `read`, by which it is no greater.
fn at_most(count: usize, places: usize) -> usize
    ensures { result ≤ places }
{
    if count < places { count } else { places }
}

// From the bytes of a file, or those of its front, and how many it has, or one more than these.
fn from_bytes(
    rt: &HostRuntime,
    command: Command,
    bytes: &[u8],
    there: usize,
    source: &mut Source,
    places: &[usize; 16],
) {
    let mut starts = [0i64; 4096];
    let mut ends = [0u64; 4096];
    let mut steps = [0i16; 4096];
    match read(bytes, &mut starts, &mut ends, &mut steps) {
        ReadRecord::Refused(why) => printing::refused(rt, why),
        ReadRecord::Runs(count, used) => {
            if used != there {
                over(rt, used, there, source);
                return;
            }
            let n = at_most(count, 4096);
            from_column(
                rt,
                command,
                used,
                there,
                &starts[..n],
                &ends[..n],
                &steps[..n],
                places,
            );
        }
    }
}

// One turn of `size`: adds the bytes of a chunk. Answers whether there were any.
fn counted(rt: &HostRuntime, source: &mut Source, sum: &mut u64) -> bool {
    let mut chunk = io::large_buffer();
    let n = opening::read_full(rt, source, &mut chunk);
    *sum = std::num::wrapping_add_u64(*sum, n as u64);
    0 < n
}

// The bytes of a file up to its end, with those that were read. A proved loop has to end, and nothing says that the file does: it counts its turns.
fn size(rt: &HostRuntime, source: &mut Source, before: u64) -> u64 {
    let mut sum = before;
    let mut turns = u64::MAX;
    while turns > 0 && counted(rt, source, &mut sum) {
        turns -= 1;
    }
    sum
}

// The last lines where bytes follow the record: how many it has, and how many the file.
fn over(rt: &HostRuntime, used: usize, there: usize, source: &mut Source) {
    printing::message(
        rt,
        b"loftsplice: a file holds one record, and bytes follow it here\n",
    );
    printing::message_number(rt, used as u64);
    printing::message(rt, b" of ");
    printing::message_number(rt, size(rt, source, there as u64));
    printing::message(rt, b" bytes used\n");
}

// Answers, if the record has all bytes of the file: else the file is not what it was taken for, and numbers of what follows would be taken for filled.
fn from_column(
    rt: &HostRuntime,
    command: Command,
    used: usize,
    there: usize,
    starts: &[i64],
    ends: &[u64],
    steps: &[i16],
    places: &[usize; 16],
)
    requires { used ≡ there }
{
    match command {
        Command::Check => {
            checking::report(rt, starts, ends, steps, places[FORMAT], places[RISING] != 0)
        }
        Command::List => listing::list_window(rt, starts, ends, steps, places),
        Command::Find => finding::find(rt, starts, ends, steps, places),
        Command::Export => {
            bitmap_files::export_column(rt, starts, ends, steps, natural(rt, places[RECORDS]))
        }
        Command::Audit => auditing::audit(rt, starts, ends, steps, places),
        Command::Totals => totalling::total_windows(rt, starts, ends, steps, places),
        _ => {}
    }
}
