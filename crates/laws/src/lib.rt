// What is proved of every call and of every list of calls, over the definitions alone: it has no
// code of its own.
#![tactic(auto)]
