// The refusals of the prover's calls and of the whole opening. A function here has its call's name, and is that call's list of tests in the order of their
// numbers: the first test that fails refuses the call. Tables are read only once all lengths are right.
#![tactic(auto)]

pub mod opening;
pub mod prover;
