// What crosses the C boundary: the two images that a caller lends, and the outcome that it gets.
#![tactic(auto)]

pub mod fresh;
pub mod images;
pub mod judge;
pub mod outcome;
