// No functions: what is read back from a book is what was written; laws in proofs/.
#![tactic(auto)]
