// What a report of a window is written with, in each format: its numbers, its rows, its page and its picture. None of it asks a column.
#![tactic(auto)]

pub mod asked;
mod held;
pub mod page;
pub mod picture;
pub mod rows;
