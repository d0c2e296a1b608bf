// Why a written bit isn't stored: the bits that a write loses, lowest first, each with its reason.
#![tactic(auto)]

pub mod elsewhere;
pub mod entry;
pub mod explanation;
pub mod listing;
pub mod lost;
pub mod reasons;
mod write;
