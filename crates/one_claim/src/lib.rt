#![tactic(auto)]

// Demand 3 as one claim over the whole list of calls and the whole tree: definitions, and runs that are tried on them. No function stands here.
