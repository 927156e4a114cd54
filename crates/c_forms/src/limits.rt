// Bounds, variable bounds and inputs as numbers: each is two lists that belong together, the second with a kind for each of the first. And the mode of
// upper bounds.
ghost use Rattle.std.specs.Prelude.{◌≡◌, ◌&&◌, pos, get_or};
ghost use Rattle.ranges.specs.Ranges.{every};
ghost use Rattle.c_forms.specs.Limits.{
  kind_number,
  flat_limit,
  boundary_of,
  limit_of,
  mode_number,
  is_mode,
  mode_of,
  between,
  paired,
  kinds,
  bounds_of,
  variables_of,
  input_at,
  inputs_of,
};

use bounds::{Bound, BoundaryType, Bounds, Input, Inputs, Limit, Mode, Variable, Variables};
use meaning::Answer;

// A bound: kind 1 inclusive, 2 exclusive; or kind 0, no bound, and value 0.
#[repr(C)]
#[derive(Clone, Copy)]
pub struct FlatLimit {
    pub value: i64,
    pub kind: u32,
}

fn kind_number(boundary: BoundaryType) -> u32
    ensures { result ≡ kind_number boundary }
{
    match boundary {
        BoundaryType::Inclusive => 1,
        BoundaryType::Exclusive => 2,
    }
}

pub fn flat_limit(limit: Limit) -> FlatLimit
    ensures { result ≡ flat_limit limit }
{
    match limit {
        Limit::Free => FlatLimit { value: 0, kind: 0 },
        Limit::To(bound) => {
            let value = bound.value;
            let boundary = bound.boundary;
            FlatLimit {
                value,
                kind: kind_number(boundary),
            }
        }
    }
}

fn boundary_of(kind: u32) -> BoundaryType
    ensures { result ≡ boundary_of kind }
{
    if kind == 2 {
        BoundaryType::Exclusive
    } else {
        BoundaryType::Inclusive
    }
}

pub fn limit_of(limit: FlatLimit) -> Limit
    ensures { result ≡ limit_of limit }
{
    let value = limit.value;
    let kind = limit.kind;
    if kind == 0 {
        return Limit::Free;
    }
    let boundary = boundary_of(kind);
    Limit::To(Bound { boundary, value })
}

// The number of a mode: the kind of the bound that wins.
pub fn mode_number(mode: Mode) -> u32
    ensures { result ≡ mode_number mode }
{
    match mode {
        Mode::InclusiveWins => 1,
        Mode::ExclusiveWins => 2,
    }
}

// Whether a number is a mode: 100 FORM is given if not.
pub fn is_mode(number: u32) -> bool
    ensures { result ≡ is_mode number }
{
    if number < 1 {
        return false;
    }
    number <= 2
}

// The mode of a number that is one: of any other too, but then FORM is given.
pub fn mode_of(number: u32) -> Mode
    ensures { result ≡ mode_of number }
{
    if number == 2 {
        Mode::ExclusiveWins
    } else {
        Mode::InclusiveWins
    }
}

// Whether each number is one of low..=high.
fn all_between(low: u8, high: u8, numbers: &[u8]) -> bool
    ensures { result ≡ every (between low high) numbers.now }
{
    let mut i: usize = 0;
    while i < numbers.len() {
        let number = numbers[i];
        if number < low {
            return false;
        }
        if high < number {
            return false;
        }
        i += 1;
    }
    true
}

// Whether there are as many numbers as `count`, each one of low..=high: 100 FORM is given if not.
pub fn is_paired(low: u8, high: u8, count: usize, numbers: &[u8]) -> bool
    ensures { result ≡ paired low high count numbers.now }
{
    if count == numbers.len() {
        all_between(low, high, numbers)
    } else {
        false
    }
}

// Whether a mode and two lists of bounds have the form.
pub fn are_bounds(mode: u32, lower: usize, lowkinds: &[u8], upper: usize, upkinds: &[u8]) -> bool
    ensures { result ≡ (is_mode mode && kinds lower lowkinds.now && kinds upper upkinds.now) }
{
    if !is_mode(mode) {
        return false;
    }
    if is_paired(1, 2, lower, lowkinds) {
        is_paired(1, 2, upper, upkinds)
    } else {
        false
    }
}

// The boundary at i; behind the list's end, any.
fn boundary_at(kinds: &[u8], i: usize) -> BoundaryType
    ensures { result ≡ boundary_of (get_or kinds.now i 0) }
{
    if i < kinds.len() {
        boundary_of(kinds[i] as u32)
    } else {
        BoundaryType::Inclusive
    }
}

// The value at i; behind the list's end, 0.
fn value_at(values: &[i64], i: usize) -> i64
    ensures { result ≡ get_or values.now i (pos 0) }
{
    if i < values.len() { values[i] } else { 0 }
}

// The input that is named at i; behind the list's end, 0.
fn named_at(inputs: &[u64], i: usize) -> usize
    ensures { result ≡ get_or inputs.now i 0 }
{
    if i < inputs.len() {
        inputs[i] as usize
    } else {
        0
    }
}

// The input at i; behind the lists' end, one without a value.
fn input_at(values: &[i64], found: &[u8], i: usize) -> Input
    ensures { result ≡ input_at values.now found.now i }
{
    if found.len() <= i {
        return Input {
            answer: Answer::None,
        };
    }
    if found[i] == 1 {
        let value = value_at(values, i);
        return Input {
            answer: Answer::Value(value),
        };
    }
    Input {
        answer: Answer::None,
    }
}

// Constant bounds as the library takes them. The count is handed on as it is: over 16 is the library's to refuse.
pub fn bounds_of(values: &[i64], kinds: &[u8]) -> Bounds
    ensures { result ≡ bounds_of values.now kinds.now }
{
    let mut items = [Bound {
        boundary: BoundaryType::Inclusive,
        value: 0,
    }; 16];
    let mut i: usize = 0;
    while i < 16 {
        let boundary = boundary_at(kinds, i);
        let value = value_at(values, i);
        items[i] = Bound { boundary, value };
        i += 1;
    }
    let count = values.len();
    Bounds { items, count }
}

// Variable bounds as the library takes them.
pub fn variables_of(inputs: &[u64], kinds: &[u8]) -> Variables
    ensures { result ≡ variables_of inputs.now kinds.now }
{
    let mut items = [Variable {
        boundary: BoundaryType::Inclusive,
        input: 0,
    }; 16];
    let mut i: usize = 0;
    while i < 16 {
        let boundary = boundary_at(kinds, i);
        let input = named_at(inputs, i);
        items[i] = Variable { boundary, input };
        i += 1;
    }
    let count = inputs.len();
    Variables { items, count }
}

// Inputs as the library takes them. The count is handed on as it is: over 8 is the library's to refuse.
pub fn inputs_of(values: &[i64], found: &[u8]) -> Inputs
    ensures { result ≡ inputs_of values.now found.now }
{
    let mut items = [Input {
        answer: Answer::None,
    }; 8];
    let mut i: usize = 0;
    while i < 8 {
        items[i] = input_at(values, found, i);
        i += 1;
    }
    let count = values.len();
    Inputs { items, count }
}
