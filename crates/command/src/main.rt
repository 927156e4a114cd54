// The command loftsplice: checks, lists, searches and builds a column that is stored as a record; docs/COMMAND.md says how it is called and what it writes.
// A Rattle program has no exit status. What went wrong is the last line on standard error, of which the wrapper ./loftsplice makes one.
#![tactic(auto)]

use telling::wrong;
use words::arguments;
use words::options::Command;
use words::places::{WANTED, WRONG};

mod checking;
mod listing;
mod reading;

fn main(rt: HostRuntime) {
    let mut places = [0usize; 16];
    let command = arguments::given(&rt, &mut places);
    if let Command::Wrong = command {
        wrong::usage(&rt, places[WRONG], places[WANTED]);
        return;
    }
    if let Command::Build = command {
        building::build(&rt, &places);
        return;
    }
    if let Command::Import = command {
        bitmap_files::import_file(&rt, &places);
        return;
    }
    reading::from_file(&rt, command, &places);
}
