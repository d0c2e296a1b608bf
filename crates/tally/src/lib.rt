// Month totals: the bits that explained writes lost for each reason, and the number of the writes.
#![tactic(auto)]

pub mod entry;
pub mod totals;
