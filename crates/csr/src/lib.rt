// The CSRs: their addresses, which of them the hart has, what each reads and what a write to it
// stores.
#![tactic(auto)]

pub mod address;
pub mod addresses;
pub mod line;
pub mod lookup;
pub mod names;
pub mod read;
pub mod table;
pub mod write;
