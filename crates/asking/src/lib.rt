// What `find` asks a column: the numbers, from wherever they come, and whether each is carried or filled.
#![tactic(auto)]

pub mod finding;
pub mod numbered;
pub mod opening;
pub mod order;
