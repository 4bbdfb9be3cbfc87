#![tactic(auto)]

// Drawn cases of the definitions, in proofs/. No function stands here.
