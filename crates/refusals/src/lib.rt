// The refusals of the judge, and the extractor's before the verifier runs. Each function is its call's list of tests, as in `prover_refusals`.
#![tactic(auto)]

pub mod judge;
pub mod tree;
