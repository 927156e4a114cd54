// Examples of columns: the calls on steps, checks, places and elements. What this writes is held to what a model of document 01 says (oracle/document).
#![tactic(auto)]

mod run_only;

fn main(rt: HostRuntime) {
    run_only::all(&rt);
}
