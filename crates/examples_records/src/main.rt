// Examples of stored records. What this writes is held to what a model of document 01 says (oracle/document).
#![tactic(auto)]

mod reading;
mod stored;

fn main(rt: HostRuntime) {
    stored::all(&rt);
}
