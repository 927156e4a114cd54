// What the words come to together: which is missing, and which exclude each other.
use crate::argv::put_argument;
use crate::options::{Command, value_start};
use crate::places::{ABOVE, BELOW, COUNT, FILE, FILLED, FROM, NUMBERS, OPERANDS, TO, WRONG};

// Whether a word is missing at the end.
fn incomplete(command: Command, operands: usize, numbers: usize) -> bool {
    if operands == 0 {
        return true;
    }
    match command {
        Command::List => operands == 2,
        Command::Find => operands == 1 && numbers == 0,
        Command::Import => operands < 3,
        Command::Export => operands < 3,
        Command::Audit => operands != 2 && operands != 4,
        Command::Totals => operands == 2,
        _ => false,
    }
}

// Notes the later of two options that exclude each other, where both are given.
fn exclude(one: usize, other: usize, places: &mut [usize; 16]) {
    if one == 0 {
        return;
    }
    if other == 0 {
        return;
    }
    if one < other {
        places[WRONG] = other;
    } else {
        places[WRONG] = one;
    }
}

// Whether argument i is, or has for its value, a dash: standard input.
fn is_dash(word: &[u8]) -> bool {
    let from = value_start(word);
    check::same(&word[from..], b"-")
}

fn dash(rt: &HostRuntime, i: usize) -> bool {
    let mut buf = io::buffer();
    let n = put_argument(rt, i, &mut buf);
    is_dash(&buf[..n])
}

// Notes a file of numbers beside numbers, or where record and numbers would both be read from standard input.
fn two_sources(
    rt: &HostRuntime,
    file: usize,
    numbers: usize,
    operands: usize,
    places: &mut [usize; 16],
) {
    if numbers == 0 {
        return;
    }
    if operands == 2 {
        places[WRONG] = numbers;
        return;
    }
    if dash(rt, file) && dash(rt, numbers) {
        places[WRONG] = numbers;
    }
}

// What is wrong with the words together.
pub fn together(rt: &HostRuntime, command: Command, count: usize, places: &mut [usize; 16]) {
    let operands = places[OPERANDS];
    let numbers = places[NUMBERS];
    if incomplete(command, operands, numbers) {
        places[WRONG] = count;
        return;
    }
    exclude(places[FROM], places[ABOVE], places);
    exclude(places[TO], places[BELOW], places);
    exclude(places[FILLED], places[COUNT], places);
    two_sources(rt, places[FILE], numbers, operands, places);
}
