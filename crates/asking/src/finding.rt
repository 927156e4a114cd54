// find FILE ..: whether the column has each number. A log whose number it does not have is filled.
ghost use Rattle.std.specs.Prelude.{◌+◌, ◌≤◌};

use crate::numbered::{from_arguments, from_lines};
use crate::order::order;
use checked::Checked;
use loftsplice::scan::Position;
use meaning::{Answer, Refusal};
use presence::{carried, index};
use telling::forms::{closed, lead, next, said};
use telling::printing::unsigned;
use telling::{printing, rows};
use words::places::{COUNT, FILLED, FORMAT, NUMBERS};

// The numbers so far that are carried, those that are filled, and the rows that were written of them.
pub const CARRIED_SUM: usize = 0;

pub const FILLED_SUM: usize = 1;

pub const ROWS: usize = 2;

#[derive(Clone, Copy)]
enum Found {
    At(u64),
    // its index is not asked for
    Carried,
    Filled,
    Refused(Refusal),
}

// A number that is carried stands at an index. (That there is none can't be, and is not taken for filled.)
fn met(position: Position) -> Found {
    match position {
        Position::Index(i) => Found::At(i),
        Position::None => Found::Refused(Refusal::Scan),
        Position::Refused(why) => Found::Refused(why),
    }
}

// What the flag of a number says. The index costs a seek, and is asked for only where it is written.
fn told(
    starts: &[i64],
    ends: &[u64],
    steps: &[i16],
    k: i64,
    flag: u8,
    places: &[usize; 16],
) -> Found {
    if flag == 0 {
        return Found::Filled;
    }
    if places[FILLED] != 0 {
        return Found::Carried;
    }
    if places[COUNT] != 0 {
        return Found::Carried;
    }
    met(index(starts, ends, steps, k))
}

// The flags of the first so many numbers.
fn flagged(
    starts: &[i64],
    ends: &[u64],
    steps: &[i16],
    numbers: &[i64; 512],
    n: usize,
    flags: &mut [u8; 512],
) -> Checked {
    let view: &[i64] = numbers;
    if n < 512 {
        return carried(starts, ends, steps, &view[..n], flags);
    }
    carried(starts, ends, steps, view, flags)
}

// One more in a place of the sums.
fn count(sums: &mut [u64; 3], place: usize)
    requires { place ≤ 2 }
{
    sums[place] = std::num::wrapping_add_u64(sums[place], 1);
}

// The byte before the next row, where the format has one; and one row more.
fn led(sums: &mut [u64; 3]) -> u8 {
    let rows = sums[ROWS];
    count(sums, ROWS);
    if rows == 0 { 91 } else { 44 }
}

fn shown(
    k: i64,
    index: u64,
    places: &[usize; 16],
    sums: &mut [u64; 3],
    buf: &mut [u8; 65536],
    at: usize,
) -> usize
    ensures { result ≤ at + 110 }
{
    count(sums, CARRIED_SUM);
    let lead = led(sums);
    rows::carried(places[FORMAT], lead, k, index, buf, at)
}

fn filled(
    k: i64,
    places: &[usize; 16],
    sums: &mut [u64; 3],
    buf: &mut [u8; 65536],
    at: usize,
) -> usize
    ensures { result ≤ at + 110 }
{
    count(sums, FILLED_SUM);
    if places[COUNT] != 0 {
        return at;
    }
    let lead = led(sums);
    rows::filled(places[FORMAT], lead, k, buf, at)
}

// The row of what was found, if it is to be written. Answers the place after it.
fn row(
    k: i64,
    found: Found,
    places: &[usize; 16],
    sums: &mut [u64; 3],
    buf: &mut [u8; 65536],
    at: usize,
) -> usize
    ensures { result ≤ at + 110 }
{
    match found {
        Found::At(index) => shown(k, index, places, sums, buf, at),
        Found::Carried => {
            count(sums, CARRIED_SUM);
            at
        }
        Found::Filled => filled(k, places, sums, buf, at),
        Found::Refused(_) => at,
    }
}

// Answers the first so many numbers, in one write. Answers whether to go on: not after a refusal or a write that failed.
pub fn answered(
    rt: &HostRuntime,
    starts: &[i64],
    ends: &[u64],
    steps: &[i16],
    numbers: &[i64; 512],
    n: usize,
    places: &[usize; 16],
    sums: &mut [u64; 3],
) -> bool {
    let mut flags = [0u8; 512];
    if let Checked::Refused(why) = flagged(starts, ends, steps, numbers, n, &mut flags) {
        printing::refused(rt, why);
        return false;
    }
    let mut buf = io::large_buffer();
    let mut at = 0;
    let mut i = 0;
    while i < 512 && i < n {
        let k = numbers[i];
        let found = told(starts, ends, steps, k, flags[i], places);
        if let Found::Refused(why) = found {
            printing::refused(rt, why);
            return false;
        }
        at = row(k, found, places, sums, &mut buf, at);
        i += 1;
    }
    printing::written(rt, &buf, at)
}

// The head of the rows: CSV alone has one.
pub fn headed(rt: &HostRuntime, places: &[usize; 16]) -> bool {
    if places[COUNT] != 0 {
        return true;
    }
    said(rt, places[FORMAT], b"", b"number,answer,index\n", b"")
}

fn summed(rt: &HostRuntime, form: usize, carried: u64, filled: u64) -> bool {
    said(rt, form, b"carried ", b"carried,filled\n", b"{\"carried\":")
        && unsigned(rt, carried)
        && said(rt, form, b"\nfilled ", b",", b",\"filled\":")
        && unsigned(rt, filled)
        && said(rt, form, b"\n", b"\n", b"}\n")
}

// The end of the answers: the sums, or the end of a list.
fn ended(rt: &HostRuntime, places: &[usize; 16], sums: &[u64; 3]) -> bool {
    if places[COUNT] != 0 {
        return summed(rt, places[FORMAT], sums[CARRIED_SUM], sums[FILLED_SUM]);
    }
    if sums[ROWS] == 0 {
        return closed(rt, lead(places[FORMAT]));
    }
    closed(rt, next(lead(places[FORMAT])))
}

// A column that does not rise is refused before anything is written.
pub fn find(rt: &HostRuntime, starts: &[i64], ends: &[u64], steps: &[i16], places: &[usize; 16]) {
    if let Answer::Refused(why) = order(starts, ends, steps) {
        printing::refused(rt, why);
        return;
    }
    let mut sums = [0u64; 3];
    if places[NUMBERS] == 0 {
        if from_arguments(rt, starts, ends, steps, places, &mut sums) {
            ended(rt, places, &sums);
        }
    } else if from_lines(rt, starts, ends, steps, places, &mut sums) {
        ended(rt, places, &sums);
    }
}
