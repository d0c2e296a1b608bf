// Which word of an image is at fault: the lowest whose condition isn't met, and what it holds.
#![tactic(auto)]

pub mod check;
pub mod fault;
mod words;
