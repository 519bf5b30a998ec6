// No functions: laws of strategies in proofs/.
#![tactic(auto)]
