// The concrete syntax of a text, its expressions and the faults of the scan: definitions (specs/) and what is proved of them (proofs/).
#![tactic(auto)]
