// Where the words stand that the command is called with: for each thing that can be asked for an argument's number, 0 where it is not asked for.
// An array of numbers, since it is filled word by word and lent to each function that reads one.

// operands: the file that is read; of `list` the window (those of `totals`, which may be many, are read again: windows); of `import` and `export` how
// many records there are, and the file to write; of `audit` how many there are, and the window of them
pub const FILE: usize = 0;

pub const START: usize = 1;

pub const END: usize = 2;

pub const RECORDS: usize = 1;

pub const OUT: usize = 2;

pub const FIRST: usize = 2;

pub const AFTER: usize = 3;

// options with a value: where the value stands (`audit` has none of the bounds, so its words stand where theirs would)
pub const FROM: usize = 3;

pub const ABOVE: usize = 4;

pub const TO: usize = 5;

pub const BELOW: usize = 6;

pub const PROFILE: usize = 6;

pub const NUMBERS: usize = 7;

// the format: not where it stands, but which it is
pub const FORMAT: usize = 8;

pub const LINES: usize = 0;

pub const CSV: usize = 1;

pub const JSON: usize = 2;

pub const HTML: usize = 3;

// options without
pub const RISING: usize = 9;

pub const FILLED: usize = 10;

pub const COUNT: usize = 11;

// `--`, after which no word is an option
pub const PLAIN: usize = 12;

// how many operands there are; of `find` up to 2, and then the second is a number; of `totals` up to 3: 2 where a window has a start and no end
pub const OPERANDS: usize = 13;

// the first word that is not understood, or that is missing, and 1 where a number was wanted there
pub const WRONG: usize = 14;

pub const WANTED: usize = 15;
