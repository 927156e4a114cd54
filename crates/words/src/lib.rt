// What the command is called with: numbers as they are written on its line or in a file, and where each word stands that says what is asked for.
#![tactic(auto)]

pub mod arguments;
pub mod argv;
pub mod lines;
pub mod numbers;
pub mod options;
pub mod places;
mod together;
pub mod windows;
