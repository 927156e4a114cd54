// Examples of columns made from plain lists and from bitmaps. What this writes is held to what a model of the requirements says (oracle/document).
#![tactic(auto)]

mod built;
mod mapped;

fn main(rt: HostRuntime) {
    built::all(&rt);
    mapped::all(&rt);
}
