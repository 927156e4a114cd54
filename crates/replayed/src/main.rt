// A fixed sample of the Rust's answers, played again: what this writes must be what the Rust answered.
// Made by `corpus --rattle crates/replayed --cases 4 --seed 562`; not written by hand.
#![tactic(auto)]

mod cases_1;
mod played;

fn main(rt: HostRuntime) {
    cases_1::all(&rt);
}
