// What is proved of the protocol's definitions. No function stands here.
#![tactic(auto)]
