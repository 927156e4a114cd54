// The C interface: the interval filter.
#![tactic(auto)]

pub mod calls;
pub mod flat;
