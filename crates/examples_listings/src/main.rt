// Examples of batch listings, and of totals. What this writes is held to what a model of the requirements says (oracle/document).
#![tactic(auto)]

mod listed;
mod listing;
mod totalled;

fn main(rt: HostRuntime) {
    listed::all(&rt);
    totalled::all(&rt);
}
