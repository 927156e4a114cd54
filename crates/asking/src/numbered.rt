// The numbers that `find` is asked about: those among the arguments, or those in a file, one a line.
use crate::finding::{CARRIED_SUM, FILLED_SUM, answered, headed};
use crate::opening;
use crate::opening::Source;
use telling::wrong;
use words::lines::{number, split};
use words::numbers::Signed;
use words::places::{FILE, NUMBERS};
use words::{arguments, argv};

// Answers the numbers among the arguments. Answers whether all were.
pub fn from_arguments(
    rt: &HostRuntime,
    starts: &[i64],
    ends: &[u64],
    steps: &[i16],
    places: &[usize; 16],
    sums: &mut [u64; 3],
) -> bool {
    if !headed(rt, places) {
        return false;
    }
    let count = argv::count(rt);
    let mut i = 2;
    while i < count {
        let mut numbers = [0i64; 512];
        let batch = arguments::numbers(rt, places[FILE], i, &mut numbers);
        if !answered(rt, starts, ends, steps, &numbers, batch.count, places, sums) {
            return false;
        }
        let next = batch.next;
        // It takes one argument at least; no proof here has to read that.
        if next <= i {
            return false;
        }
        i = next;
    }
    true
}

// The last lines where line i is no number.
pub fn show_line(rt: &HostRuntime, line: &[u8; 64], held: usize, i: u64) {
    let view: &[u8] = line;
    if held < 64 {
        wrong::line(rt, i, &view[..held]);
    } else {
        wrong::line(rt, i, view);
    }
}

// The last lines where the line after those that were answered is no number. Answers that not all were.
fn no_number(rt: &HostRuntime, line: &[u8; 64], held: usize, sums: &[u64; 3]) -> bool {
    let answered = std::num::wrapping_add_u64(sums[CARRIED_SUM], sums[FILLED_SUM]);
    show_line(rt, line, held, std::num::wrapping_add_u64(answered, 1));
    false
}

// Answers the number on a last line that has no line end.
fn last(
    rt: &HostRuntime,
    starts: &[i64],
    ends: &[u64],
    steps: &[i16],
    places: &[usize; 16],
    line: &[u8; 64],
    held: usize,
    sums: &mut [u64; 3],
) -> bool {
    if held == 0 {
        return true;
    }
    match number(line, held) {
        Signed::Not => no_number(rt, line, held, sums),
        Signed::Is(k) => {
            let numbers = [k; 512];
            answered(rt, starts, ends, steps, &numbers, 1, places, sums)
        }
    }
}

// What a chunk of the file came to.
#[derive(Clone, Copy)]
enum Chunk {
    More,
    End,
    Stopped,
}

// Answers the numbers of a chunk.
fn turn(
    rt: &HostRuntime,
    starts: &[i64],
    ends: &[u64],
    steps: &[i16],
    places: &[usize; 16],
    source: &mut Source,
    line: &mut [u8; 64],
    held: &mut usize,
    sums: &mut [u64; 3],
) -> Chunk {
    let mut chunk = [0u8; 512];
    let Some(n) = opening::read_some(rt, source, &mut chunk) else {
        return Chunk::Stopped;
    };
    if n == 0 {
        return Chunk::End;
    }
    let mut numbers = [0i64; 512];
    let lines = split(&chunk, n, line, *held, &mut numbers);
    *held = lines.held;
    if !answered(rt, starts, ends, steps, &numbers, lines.count, places, sums) {
        return Chunk::Stopped;
    }
    if lines.wrong {
        no_number(rt, line, lines.held, sums);
        return Chunk::Stopped;
    }
    Chunk::More
}

// Answers the numbers of a file, whatever its length: a proved loop has to end, and nothing says that the file does, so it counts its turns.
pub fn from_lines(
    rt: &HostRuntime,
    starts: &[i64],
    ends: &[u64],
    steps: &[i16],
    places: &[usize; 16],
    sums: &mut [u64; 3],
) -> bool {
    let Some(mut source) = opening::open(rt, places[NUMBERS], true) else {
        return false;
    };
    if !headed(rt, places) {
        return false;
    }
    let mut line = [0u8; 64];
    let mut held = 0;
    let mut turns = u64::MAX;
    while turns > 0 {
        match turn(
            rt,
            starts,
            ends,
            steps,
            places,
            &mut source,
            &mut line,
            &mut held,
            sums,
        ) {
            Chunk::Stopped => return false,
            Chunk::End => return last(rt, starts, ends, steps, places, &line, held, sums),
            Chunk::More => {}
        }
        turns -= 1;
    }
    false
}
