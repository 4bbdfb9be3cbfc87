// Arithmetic modulo q for residues of up to 61 bits, in numbers of 64 bits: products, by a factor that is prepared once, and halves. Every public function is
// safe for every input; what it gives is said under a condition that the refusals ensure.
#![tactic(auto)]

pub mod factors;
pub mod halves;
