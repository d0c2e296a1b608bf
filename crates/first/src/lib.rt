// What is so of each of a list, and the first of it that passes a test: it has no code of its own.
#![tactic(auto)]
