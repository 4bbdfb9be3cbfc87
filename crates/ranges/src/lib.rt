// The tests that refusals 3 to 10 go by: settings, and the ranges of the numbers of a table. Every public function is safe for every input.
#![tactic(auto)]

pub mod tests;
