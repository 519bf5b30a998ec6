// No functions: demands 2 and 3 proved in proofs/.
#![tactic(auto)]
