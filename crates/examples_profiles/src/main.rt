// Examples of columns read by profile. What this writes is held to what a model of the requirements says (oracle/document).
#![tactic(auto)]

mod profiled;

fn main(rt: HostRuntime) {
    profiled::all(&rt);
}
