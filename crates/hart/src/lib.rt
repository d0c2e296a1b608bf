// The hart: its capabilities, its record, which of them are legal, and what a call answers.
#![tactic(auto)]

pub mod answer;
pub mod caps;
pub mod modes;
mod names;
pub mod record;
pub mod table;
