// The plain engine: CSRs read and written by one table of rows, on a record by value. It gives the
// same as the fast engine, and is for people who check the rules.
#![tactic(auto)]

pub mod engine;
pub mod entries;
pub mod extensions;
pub mod names;
pub mod row;
pub mod table;
pub mod words;
