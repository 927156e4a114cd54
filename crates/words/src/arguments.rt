// What the command is asked to do. Argument 1 is the word for it; those that follow are read here, before the file is.
ghost use Rattle.std.specs.Prelude.{◌≤◌, ◌<◌};

use crate::argv;
use crate::argv::put_argument;
use crate::numbers::{Signed, Unsigned, read_signed, read_unsigned};
use crate::options::{Command, equal, fits, format_of, is_number, option_of, value_start};
use crate::places::{FILE, FORMAT, LINES, NUMBERS, OPERANDS, OUT, PLAIN, RISING, WANTED, WRONG};
use crate::together::together;

fn signed_in(word: &[u8]) -> Signed {
    let from = value_start(word);
    read_signed(&word[from..])
}

// Argument i as a number; a missing one is none.
pub fn signed(rt: &HostRuntime, i: usize) -> Signed {
    let mut buf = io::buffer();
    let n = put_argument(rt, i, &mut buf);
    signed_in(&buf[..n])
}

pub fn unsigned(rt: &HostRuntime, i: usize) -> Unsigned {
    let mut buf = io::buffer();
    let n = put_argument(rt, i, &mut buf);
    read_unsigned(&buf[..n])
}

// The same where it was read before, as every operand is that has to be a number.
pub fn natural(rt: &HostRuntime, i: usize) -> u64 {
    match unsigned(rt, i) {
        Unsigned::Not => 0,
        Unsigned::Is(n) => n,
    }
}

// Notes a word that is wrong, and whether a number was wanted. Answers that it is passed over.
fn wrong(i: usize, wanted: usize, places: &mut [usize; 16]) -> usize {
    places[WRONG] = i;
    places[WANTED] = wanted;
    1
}

// Takes a format. Answers how many arguments were taken.
fn formatted(
    command: Command,
    value: &[u8],
    i: usize,
    took: usize,
    places: &mut [usize; 16],
) -> usize {
    let format = format_of(command, value);
    if format == LINES {
        return wrong(i, 0, places);
    }
    places[FORMAT] = format;
    took
}

// Takes an argument for the value of an option, if it is one. Answers how many arguments were taken.
fn valued(
    command: Command,
    option: usize,
    value: &[u8],
    i: usize,
    took: usize,
    places: &mut [usize; 16],
) -> usize
    requires { option < 12 }
{
    if option == FORMAT {
        return formatted(command, value, i, took, places);
    }
    if fits(option, value) {
        places[option] = i;
        return took;
    }
    if option == NUMBERS {
        return wrong(i, 0, places);
    }
    wrong(i, 1, places)
}

fn value_after(
    rt: &HostRuntime,
    command: Command,
    option: usize,
    i: usize,
    places: &mut [usize; 16],
) -> usize
    requires { option < 12 }
{
    let mut buf = io::buffer();
    let n = put_argument(rt, i, &mut buf);
    valued(command, option, &buf[..n], i, 2, places)
}

// Takes an option: its value stands behind a '=' or in the next argument. None is given twice. Answers how many arguments it has.
fn option(
    rt: &HostRuntime,
    command: Command,
    word: &[u8],
    i: usize,
    after: usize,
    places: &mut [usize; 16],
) -> usize {
    let end = equal(word);
    let option = option_of(command, &word[..end]);
    if option == 0 {
        return wrong(i, 0, places);
    }
    if places[option] != 0 {
        return wrong(i, 0, places);
    }
    if end < word.len() {
        if RISING <= option {
            return wrong(i, 0, places);
        }
        return valued(command, option, &word[end + 1..], i, 1, places);
    }
    if RISING <= option {
        places[option] = i;
        return 1;
    }
    value_after(rt, command, option, after, places)
}

// Takes a number that is asked for.
fn asked(word: &[u8], i: usize, places: &mut [usize; 16]) -> usize {
    if !is_number(word) {
        return wrong(i, 1, places);
    }
    places[OPERANDS] = 2;
    1
}

// Takes an operand that is a number, up to a last one: of `list` 1 is START, 2 is END; of `audit` 1 is COUNT, then come START and END.
fn index(word: &[u8], operand: usize, last: usize, i: usize, places: &mut [usize; 16]) -> usize
    requires { last < 12 }
{
    if last < operand {
        return wrong(i, 0, places);
    }
    match read_unsigned(word) {
        Unsigned::Not => wrong(i, 1, places),
        Unsigned::Is(_) => {
            places[operand] = i;
            places[OPERANDS] = operand + 1;
            1
        }
    }
}

// Takes the number of records, operand 1, or the file to write, operand 2.
fn counted(word: &[u8], operand: usize, i: usize, places: &mut [usize; 16]) -> usize {
    if operand != 2 {
        return index(word, operand, 2, i, places);
    }
    places[OUT] = i;
    places[OPERANDS] = 3;
    1
}

// Takes an edge of a window, of which there may be many: after the file, operand 2 is a start and operand 3 its end.
fn edge(word: &[u8], operands: usize, i: usize, places: &mut [usize; 16]) -> usize {
    match read_unsigned(word) {
        Unsigned::Not => wrong(i, 1, places),
        Unsigned::Is(_) => {
            places[OPERANDS] = if operands == 2 { 3 } else { 2 };
            1
        }
    }
}

// Takes a word that is no option: the file first.
fn operand(command: Command, word: &[u8], i: usize, places: &mut [usize; 16]) -> usize {
    let operands = places[OPERANDS];
    if operands == 0 {
        places[FILE] = i;
        places[OPERANDS] = 1;
        return 1;
    }
    match command {
        Command::Find => asked(word, i, places),
        Command::List => index(word, operands, 2, i, places),
        Command::Audit => index(word, operands, 3, i, places),
        Command::Import => counted(word, operands, i, places),
        Command::Export => counted(word, operands, i, places),
        Command::Totals => edge(word, operands, i, places),
        _ => wrong(i, 0, places),
    }
}

// Whether a word has to be an option: it begins with a dash, and is neither a dash alone nor a number.
fn is_option(word: &[u8]) -> bool {
    if word.len() < 2 {
        return false;
    }
    if word[0] != 45 {
        return false;
    }
    !is_number(word)
}

// Takes a word. Answers how many arguments were taken, 1 or 2.
fn taken(
    rt: &HostRuntime,
    command: Command,
    word: &[u8],
    i: usize,
    after: usize,
    places: &mut [usize; 16],
) -> usize {
    if places[PLAIN] != 0 {
        return operand(command, word, i, places);
    }
    if !is_option(word) {
        return operand(command, word, i, places);
    }
    if check::same(word, b"--") {
        places[PLAIN] = i;
        return 1;
    }
    option(rt, command, word, i, after, places)
}

fn argument(
    rt: &HostRuntime,
    command: Command,
    i: usize,
    after: usize,
    places: &mut [usize; 16],
) -> usize {
    let mut buf = io::buffer();
    let n = put_argument(rt, i, &mut buf);
    taken(rt, command, &buf[..n], i, after, places)
}

// Takes the arguments from 2 on, up to the first that is wrong.
fn take_all(rt: &HostRuntime, command: Command, count: usize, places: &mut [usize; 16]) {
    let mut i = 2;
    while i < count {
        let took = argument(rt, command, i, i + 1, places);
        if places[WRONG] != 0 {
            return;
        }
        i += 1;
        if took == 2 {
            if i < count {
                i += 1;
            }
        }
    }
}

fn named(word: &[u8]) -> Command {
    if check::same(word, b"check") {
        return Command::Check;
    }
    if check::same(word, b"list") {
        return Command::List;
    }
    if check::same(word, b"find") {
        return Command::Find;
    }
    if check::same(word, b"build") {
        return Command::Build;
    }
    if check::same(word, b"import") {
        return Command::Import;
    }
    if check::same(word, b"export") {
        return Command::Export;
    }
    if check::same(word, b"audit") {
        return Command::Audit;
    }
    if check::same(word, b"totals") {
        return Command::Totals;
    }
    Command::Wrong
}

fn first(rt: &HostRuntime) -> Command {
    let mut buf = io::buffer();
    let n = put_argument(rt, 1, &mut buf);
    named(&buf[..n])
}

// What is asked for, and where the words for it stand; or Wrong, and which word is.
pub fn given(rt: &HostRuntime, places: &mut [usize; 16]) -> Command {
    let count = argv::count(rt);
    let command = first(rt);
    if let Command::Wrong = command {
        places[WRONG] = 1;
        return Command::Wrong;
    }
    take_all(rt, command, count, places);
    if places[WRONG] != 0 {
        return Command::Wrong;
    }
    together(rt, command, count, places);
    if places[WRONG] != 0 {
        return Command::Wrong;
    }
    command
}

// Takes argument i among the numbers that are asked for, if it is one. Answers how many there are then.
fn collect(rt: &HostRuntime, file: usize, i: usize, out: &mut [i64; 512], n: usize) -> usize
    requires { n < 512 }
    ensures { result ≤ 512 }
{
    if i == file {
        return n;
    }
    match signed(rt, i) {
        Signed::Not => n,
        Signed::Is(k) => {
            out[n] = k;
            n + 1
        }
    }
}

// What the arguments from one on came to: so many numbers, and the argument to go on from.
#[derive(Clone, Copy)]
pub struct Batch {
    pub count: usize,
    pub next: usize,
}

// The numbers that are asked for among the arguments from one on, as many as there is room for. Of the words of `find` no other is a number but,
// perhaps, the file.
pub fn numbers(rt: &HostRuntime, file: usize, from: usize, out: &mut [i64; 512]) -> Batch {
    let count = argv::count(rt);
    let mut n = 0;
    let mut i = from;
    while i < count && n < 512 {
        n = collect(rt, file, i, out, n);
        i += 1;
    }
    Batch { count: n, next: i }
}
