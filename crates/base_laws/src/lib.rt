//! Small laws on options, tests and orders that the proofs of several crates cite. It has no functions.
#![tactic(auto)]
