// The options: their names, which command has which, and what their values may be.
ghost use Rattle.std.specs.Prelude.{◌≤◌, ◌<◌, length};

use crate::numbers::{Signed, read_signed};
use crate::places::{
    ABOVE, BELOW, COUNT, CSV, FILLED, FORMAT, FROM, HTML, JSON, LINES, NUMBERS, PROFILE, RISING, TO,
};

#[derive(Clone, Copy)]
pub enum Command {
    Check,
    List,
    Find,
    Build,
    Import,
    Export,
    Audit,
    Totals,
    Wrong,
}

// The first '=' of a word, or its end.
pub fn equal(word: &[u8]) -> usize
    ensures { result ≤ length word.now }
{
    let mut at = 0;
    while at < word.len() && word[at] != 61 {
        at += 1;
    }
    at
}

// Whether a word begins with two dashes: no value does.
fn dashed(word: &[u8]) -> bool {
    if word.len() < 2 {
        return false;
    }
    if word[0] != 45 {
        return false;
    }
    word[1] == 45
}

// Where the value of a word begins: in an option after its '=', else at the front.
pub fn value_start(word: &[u8]) -> usize
    ensures { result ≤ length word.now }
{
    if !dashed(word) {
        return 0;
    }
    let at = equal(word);
    if at < word.len() { at + 1 } else { 0 }
}

fn listing_option(name: &[u8]) -> usize
    ensures { result < 12 }
{
    if check::same(name, b"--from") {
        return FROM;
    }
    if check::same(name, b"--above") {
        return ABOVE;
    }
    if check::same(name, b"--to") {
        return TO;
    }
    if check::same(name, b"--below") {
        return BELOW;
    }
    0
}

fn finding_option(name: &[u8]) -> usize
    ensures { result < 12 }
{
    if check::same(name, b"--numbers") {
        return NUMBERS;
    }
    if check::same(name, b"--filled") {
        return FILLED;
    }
    if check::same(name, b"--count") {
        return COUNT;
    }
    0
}

fn checking_option(name: &[u8]) -> usize
    ensures { result < 12 }
{
    if check::same(name, b"--rising") {
        return RISING;
    }
    0
}

fn auditing_option(name: &[u8]) -> usize
    ensures { result < 12 }
{
    if check::same(name, b"--profile") {
        return PROFILE;
    }
    0
}

// The option of this name that a command has by itself.
fn own_option(command: Command, name: &[u8]) -> usize
    ensures { result < 12 }
{
    match command {
        Command::Check => checking_option(name),
        Command::List => listing_option(name),
        Command::Find => finding_option(name),
        Command::Audit => auditing_option(name),
        _ => 0,
    }
}

// Whether a command writes a text. A record and a bitmap have one format.
fn tells(command: Command) -> bool {
    match command {
        Command::Check => true,
        Command::List => true,
        Command::Find => true,
        Command::Audit => true,
        Command::Totals => true,
        _ => false,
    }
}

// The option of this name, by its place; 0 where the command has none.
pub fn option_of(command: Command, name: &[u8]) -> usize
    ensures { result < 12 }
{
    if !tells(command) {
        return 0;
    }
    if check::same(name, b"--format") {
        return FORMAT;
    }
    own_option(command, name)
}

pub fn is_number(word: &[u8]) -> bool {
    match read_signed(word) {
        Signed::Is(_) => true,
        Signed::Not => false,
    }
}

// The format that a page has: a report alone is one.
fn page_of(command: Command) -> usize {
    match command {
        Command::Audit => HTML,
        _ => LINES,
    }
}

// The format of a name; LINES, which has none, where it is no other's.
pub fn format_of(command: Command, name: &[u8]) -> usize {
    if check::same(name, b"csv") {
        return CSV;
    }
    if check::same(name, b"json") {
        return JSON;
    }
    if check::same(name, b"html") {
        return page_of(command);
    }
    LINES
}

// Whether a text is a value of an option that is no format.
pub fn fits(option: usize, value: &[u8]) -> bool {
    if option == NUMBERS {
        return 0 < value.len() && !dashed(value);
    }
    is_number(value)
}
