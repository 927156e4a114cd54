// Numbers in a file, one a line, as they come in chunks.
use crate::numbers::{Signed, read_signed};

// What a chunk came to: its numbers, how many bytes are held of the line that it ends in, and whether a line is no number.
#[derive(Clone, Copy)]
pub struct Lines {
    pub count: usize,
    pub held: usize,
    pub wrong: bool,
}

// Keeps a byte of a line. One of over 64 bytes counts as 65, and is no number.
fn hold(byte: u8, line: &mut [u8; 64], held: usize) -> usize {
    if 63 < held {
        return 65;
    }
    line[held] = byte;
    held + 1
}

// A carriage return may stand before the line's end.
fn number_in(line: &[u8]) -> Signed {
    let n = line.len();
    if n == 0 {
        return Signed::Not;
    }
    if line[n - 1] == 13 {
        return read_signed(&line[..n - 1]);
    }
    read_signed(line)
}

// The number on a line of which so many bytes are held.
pub fn number(line: &[u8; 64], held: usize) -> Signed {
    if 64 < held {
        return Signed::Not;
    }
    let view: &[u8] = line;
    number_in(&view[..held])
}

// The numbers on the lines that end in a chunk, of which the first n bytes are there. A number takes a byte at least, so there is room for all.
pub fn split(
    chunk: &[u8; 512],
    n: usize,
    line: &mut [u8; 64],
    before: usize,
    out: &mut [i64; 512],
) -> Lines {
    let mut count = 0;
    let mut held = before;
    let mut i = 0;
    while i < 512 && i < n {
        let byte = chunk[i];
        i += 1;
        if byte != 10 {
            held = hold(byte, line, held);
        } else {
            let Signed::Is(k) = number(line, held) else {
                return Lines {
                    count,
                    held,
                    wrong: true,
                };
            };
            out[count] = k;
            count += 1;
            held = 0;
        }
    }
    Lines {
        count,
        held,
        wrong: false,
    }
}
