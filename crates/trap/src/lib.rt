// The trap part: the pending question, injection, the firmware trap, mret and sret, over what the
// register part promises.
#![tactic(auto)]

pub mod context;
pub mod interrupts;
pub mod status;
pub mod target;
