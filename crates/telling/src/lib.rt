// What the command writes: answers in one of three formats, messages, refusals, and which word is wrong.
#![tactic(auto)]

pub mod forms;
pub mod printing;
pub mod rows;
pub mod wrong;
