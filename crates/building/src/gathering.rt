// The numbers of a file, one a line, held together: runs are built from a whole list.
use asking::numbered::show_line;
use asking::opening;
use asking::opening::Source;
use telling::printing;
use words::lines::{number, split};
use words::numbers::Signed;

// How many numbers there is room for.
pub const MOST: usize = 524288;

// The last lines where a file has more. Answers what stands for a list that is not whole.
fn too_many(rt: &HostRuntime) -> usize {
    printing::message(
        rt,
        b"loftsplice: over 524,288 numbers are not held\ntoo many numbers\n",
    );
    MOST + 1
}

// The last lines where the line after the first so many is no number.
fn no_number(rt: &HostRuntime, line: &[u8; 64], held: usize, before: usize) -> usize {
    show_line(rt, line, held, std::num::wrapping_add_u64(before as u64, 1));
    MOST + 1
}

// The first so many numbers behind those that are held. Answers how many are held then; over MOST where there is no room.
fn kept(
    rt: &HostRuntime,
    numbers: &[i64; 512],
    n: usize,
    values: &mut [i64],
    count: usize,
) -> usize {
    let mut at = count;
    let mut i = 0;
    while i < 512 && i < n {
        if values.len() <= at {
            return too_many(rt);
        }
        values[at] = numbers[i];
        at += 1;
        i += 1;
    }
    at
}

// What a last line without a line end adds.
fn last(rt: &HostRuntime, line: &[u8; 64], held: usize, values: &mut [i64], count: usize) -> usize {
    if held == 0 {
        return count;
    }
    match number(line, held) {
        Signed::Not => no_number(rt, line, held, count),
        Signed::Is(k) => kept(rt, &[k; 512], 1, values, count),
    }
}

// What a chunk of the file came to.
#[derive(Clone, Copy)]
struct Chunk {
    count: usize,
    more: bool,
}

// Holds the numbers of a chunk; after the end those of the last line.
fn turn(
    rt: &HostRuntime,
    source: &mut Source,
    line: &mut [u8; 64],
    held: &mut usize,
    values: &mut [i64],
    count: usize,
) -> Chunk {
    let mut chunk = [0u8; 512];
    let Some(n) = opening::read_some(rt, source, &mut chunk) else {
        return Chunk {
            count: MOST + 1,
            more: false,
        };
    };
    if n == 0 {
        return Chunk {
            count: last(rt, line, *held, values, count),
            more: false,
        };
    }
    let mut numbers = [0i64; 512];
    let lines = split(&chunk, n, line, *held, &mut numbers);
    *held = lines.held;
    let sum = kept(rt, &numbers, lines.count, values, count);
    if MOST < sum {
        return Chunk {
            count: sum,
            more: false,
        };
    }
    if lines.wrong {
        return Chunk {
            count: no_number(rt, line, lines.held, sum),
            more: false,
        };
    }
    Chunk {
        count: sum,
        more: true,
    }
}

// The numbers of a file, and how many; over MOST, after the last line, where not all are held. A proved loop has to end, and nothing says that the
// file does: it counts its turns.
pub fn gathered(rt: &HostRuntime, source: &mut Source, values: &mut [i64]) -> usize {
    let mut line = [0u8; 64];
    let mut held = 0;
    let mut count = 0;
    let mut turns = u64::MAX;
    while turns > 0 {
        let chunk = turn(rt, source, &mut line, &mut held, values, count);
        count = chunk.count;
        if !chunk.more {
            return count;
        }
        turns -= 1;
    }
    MOST + 1
}
