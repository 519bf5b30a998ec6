// No functions: laws of kept states and waits in proofs/.
#![tactic(auto)]
