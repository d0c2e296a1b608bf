// A call log, replayed as it arrives: its entries, the bytes that wait for the rest of one, and the
// two calls.
#![tactic(auto)]

pub mod entries;
pub mod log;
pub mod wait;
