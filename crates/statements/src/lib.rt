// No functions: this crate holds the definitions of document 01 in specs/, and the marked examples proved of them.
#![tactic(auto)]
