// No functions: laws of the small vocabulary of sets in proofs/.
#![tactic(auto)]
