// Examples of scans, by value and lent. What this writes is held to what a model of document 01 says (oracle/document).
#![tactic(auto)]

mod lending;
mod scanned;

fn main(rt: HostRuntime) {
    scanned::all(&rt);
    lending::all(&rt);
}
