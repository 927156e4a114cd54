// A scan as numbers, both ways.
ghost use Rattle.std.specs.Prelude.{◌≡◌};
ghost use Rattle.c_forms.specs.Scan.{is_state, good_scan, state_of, carried_of, scan_of, flat_parts, flat_scan, no_scan};

use loftsplice::scan::{Carried, Scan, State};

// A window, and a state: 0 fresh, 1 at an index, 2 ended. The index is read in state 1 only, and given as 0 in the others.
// And what the scan carries: found 1 and the value, or found 0. The value is read where found is 1 only, and given as 0 where it is 0.
#[repr(C)]
#[derive(Clone, Copy)]
pub struct FlatScan {
    pub start: u64,
    pub end: u64,
    pub index: u64,
    pub value: i64,
    pub state: u32,
    pub found: u32,
}

// Whether a number is a state.
fn is_state(state: u32) -> bool
    ensures { result ≡ is_state state }
{
    state <= 2
}

// Whether the state is one, and `found` says whether a value is there: 100 FORM is given if not.
pub fn is_scan(scan: FlatScan) -> bool
    ensures { result ≡ good_scan scan }
{
    if is_state(scan.state) {
        scan.found <= 1
    } else {
        false
    }
}

// The state of a number that is one: of any other too, but then FORM is given.
fn state_of(number: u32, index: u64) -> State
    ensures { result ≡ state_of number index }
{
    if number == 0 {
        State::Fresh
    } else if number == 1 {
        State::At(index)
    } else {
        State::Ended
    }
}

// What is carried, by a number that says whether a value is there: by any other too, but then FORM is given.
fn carried_of(found: u32, value: i64) -> Carried
    ensures { result ≡ carried_of found value }
{
    if found == 1 {
        Carried::Value(value)
    } else {
        Carried::None
    }
}

pub fn scan_of(scan: FlatScan) -> Scan
    ensures { result ≡ scan_of scan }
{
    let start = scan.start;
    let end = scan.end;
    let state = state_of(scan.state, scan.index);
    let value = carried_of(scan.found, scan.value);
    Scan {
        start,
        end,
        state,
        value,
    }
}

// The numbers as they are, and what is carried as two.
fn flat_parts(start: u64, end: u64, index: u64, state: u32, carried: Carried) -> FlatScan
    ensures { result ≡ flat_parts start end index state carried }
{
    match carried {
        Carried::Value(held) => FlatScan {
            start,
            end,
            index,
            value: held,
            state,
            found: 1,
        },
        Carried::None => FlatScan {
            start,
            end,
            index,
            value: 0,
            state,
            found: 0,
        },
    }
}

pub fn flat_scan(scan: Scan) -> FlatScan
    ensures { result ≡ flat_scan scan }
{
    let start = scan.start;
    let end = scan.end;
    let state = scan.state;
    let value = scan.value;
    match state {
        State::Fresh => flat_parts(start, end, 0, 0, value),
        State::At(index) => flat_parts(start, end, index, 1, value),
        State::Ended => flat_parts(start, end, 0, 2, value),
    }
}

// What stands for a scan that was refused when it was made.
pub fn no_scan() -> FlatScan
    ensures { result ≡ no_scan }
{
    FlatScan {
        start: 0,
        end: 0,
        index: 0,
        value: 0,
        state: 4294967295,
        found: 0,
    }
}
