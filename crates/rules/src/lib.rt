// What each register makes of a written word, and what it shows of a stored one: functions on words
// alone.
#![tactic(auto)]

pub mod addresses;
pub mod config;
pub mod interrupts;
pub mod status;
