// What the crates of the C interface share. That interface is each public call as an exported function: each of the other crates whose names begin
// with `c_` holds a family, and scripts/archive joins them. Only numbers and lists of numbers cross: an answer is a struct of
// numbers, by value. Every function is total. `refusal` is 0, document 01's number, or 100 FORM: "a number that is no state, kind or found, or two
// lists that belong together and differ in length", which is tried before all others.
#![tactic(auto)]

pub mod answers;
pub mod limits;
pub mod scans;
