// build FILE: the numbers of a file, one a line, as a stored record on standard output.
#![tactic(auto)]

pub mod gathering;
pub mod stored;

use crate::gathering::{MOST, gathered};
use crate::stored::stored;
use asking::opening;
use asking::opening::Source;
use record::Written;
use telling::printing;
use words::places::FILE;

// Writes the record of some numbers, whole or not at all.
fn put(rt: &HostRuntime, values: &[i64]) {
    let mut bytes = io::large_buffer();
    match stored(values, &mut bytes) {
        Written::Refused(why) => printing::refused(rt, why),
        Written::Bytes(n) => {
            printing::written(rt, &bytes, n);
        }
    }
}

fn from_file(rt: &HostRuntime, source: &mut Source) {
    let mut values = [0i64; 524288];
    let n = gathered(rt, source, &mut values);
    if n <= MOST {
        put(rt, &values[..n]);
    }
}

pub fn build(rt: &HostRuntime, places: &[usize; 16]) {
    if let Some(mut source) = opening::open(rt, places[FILE], false) {
        from_file(rt, &mut source);
    }
}
