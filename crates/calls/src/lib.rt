// The calls: bytes and numbers in, outcome and bytes out. No rule of a register stands here.
#![tactic(auto)]

pub mod entries;
pub mod steps;
